//! What must not change when a manifest replaces an object.
ghost use Rattle.std.specs.Prelude.{◌≡◌, ◌↔◌, IsErr, option_copied};
ghost use Rattle.json_tree.specs.Equal.{is_equal};
ghost use Rattle.resource_types.specs.contracts.specification.Template as template_row;
ghost use Rattle.validation.specs.Change.{ChangesKeptName, change_fault, differs_under_name, template_of_body, template_of_spec};

use crate::emptiness::is_empty;
use json_tree::Alike;
use resource_types::{Body, Manifest, ManifestSpec, Object, Template};

/// The template changed, but kept its name: there would be two Revisions of that name.
#[derive(Clone, Copy, Debug, PartialEq, Eq)]
pub struct KeptName;

/// Whether the manifest may replace the object, which is of the same kind, as far as their templates go.
///
/// It may not exactly where both have a template, both templates have the same name, that name isn't empty, and the
/// templates differ. It takes no memory.
pub fn check_change(old: &Object, new: &Manifest) -> Result<(), KeptName>
    ensures value { result ≡ change_fault old.now new.now }
    ensures refused { IsErr result ↔ ChangesKeptName old.now new.now }
{
    let Some(before) = template_of_body(&old.body) else {
        return Ok(());
    };
    let Some(after) = template_of_spec(&new.spec) else {
        return Ok(());
    };
    if differs_under_name(before, after) {
        Err(KeptName)
    } else {
        Ok(())
    }
}

fn template_of_body(body: &Body) -> Option<&Template>
    ensures { option_copied result ≡ template_of_body body.now }
{
    match body {
        Body::Service { template, .. } => Some(template),
        Body::Configuration { template, .. } => Some(template),
        _ => None,
    }
}

fn template_of_spec(spec: &ManifestSpec) -> Option<&Template>
    ensures { option_copied result ≡ template_of_spec spec.now }
{
    match spec {
        ManifestSpec::Service { template, .. } => Some(template),
        ManifestSpec::Configuration { template } => Some(template),
        ManifestSpec::Route { .. } => None,
    }
}

fn differs_under_name(old: &Template, new: &Template) -> bool
    ensures { result ≡ differs_under_name old.now new.now }
{
    old.name.as_str() == new.name.as_str() && !is_empty(&old.name) && !is_same(old, new)
}

fn is_same(old: &Template, new: &Template) -> bool
    ensures { result ≡ is_equal template_row.the_row.coded old.now new.now }
{
    old.equals(new)
}
