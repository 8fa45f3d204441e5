//! Templates, and the specs that they stand in.
ghost use Rattle.std.specs.Prelude.{◌≡◌, ◌↔◌, IsTrue, Some, [], codes, OnOk};
ghost use Rattle.resource_types.specs.declared.manifests.ManifestSpec.TheVariants as kind;
ghost use Rattle.resource_codec.specs.Written.{object_of, object_field, template_metadata, template_members, spec_members};
ghost use Rattle.object_writer.specs.Tokens.{with_value, with_field};

use crate::pods::pod_field;
use crate::targets::traffic_field;
use crate::text::JsonText;
use json_tree::Seq;
use resource_types::{Target, Template};
use std::alloc::AllocError;

// Whether a template's metadata is empty.
fn is_bare(template: &Template) -> bool
    ensures { IsTrue result ↔ (template_metadata template.now ≡ []) }
{
    template.annotations.is_empty() && template.labels.is_empty() && template.name.is_empty()
}

fn metadata_field(out: &mut JsonText, template: &Template) -> Result<(), AllocError>
    ensures { OnOk result (out.new ≡ with_field (codes "metadata") (object_field (template_metadata template.now)) out.old) }
{
    if is_bare(template) {
        return Ok(());
    }
    out.name("metadata")?;
    out.open_object()?;
    out.texts_field("annotations", &template.annotations)?;
    out.texts_field("labels", &template.labels)?;
    out.text_field("name", template.name.as_str())?;
    out.close_object()
}

fn write_template(out: &mut JsonText, template: &Template) -> Result<(), AllocError>
    ensures { OnOk result (out.new ≡ with_value (object_of (template_members template.now)) out.old) }
{
    out.open_object()?;
    metadata_field(out, template)?;
    pod_field(out, "spec", &template.spec)?;
    out.close_object()
}

fn template_field(out: &mut JsonText, template: &Template) -> Result<(), AllocError>
    ensures { OnOk result (out.new ≡ with_field (codes "template") (Some (object_of (template_members template.now))) out.old) }
{
    out.name("template")?;
    write_template(out, template)
}

/// Writes the spec of a Service.
pub fn service_spec(
    out: &mut JsonText,
    template: &Template,
    traffic: &Seq<Target>,
) -> Result<(), AllocError>
    ensures { OnOk result (out.new ≡ with_value (object_of (spec_members (kind.Service template.now traffic.now))) out.old) }
{
    out.open_object()?;
    template_field(out, template)?;
    traffic_field(out, "traffic", traffic)?;
    out.close_object()
}

/// Writes the spec of a Configuration.
pub fn configuration_spec(out: &mut JsonText, template: &Template) -> Result<(), AllocError>
    ensures { OnOk result (out.new ≡ with_value (object_of (spec_members (kind.Configuration template.now))) out.old) }
{
    out.open_object()?;
    template_field(out, template)?;
    out.close_object()
}

/// Writes the spec of a Route.
pub fn route_spec(out: &mut JsonText, traffic: &Seq<Target>) -> Result<(), AllocError>
    ensures { OnOk result (out.new ≡ with_value (object_of (spec_members (kind.Route traffic.now))) out.old) }
{
    out.open_object()?;
    traffic_field(out, "traffic", traffic)?;
    out.close_object()
}
