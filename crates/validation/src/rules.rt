//! The rules of a whole manifest.
ghost use Rattle.std.specs.Prelude.{◌≡◌};
ghost use Rattle.validation.specs.Rules.{first_fault, rules_of, spec_lines};

use crate::places::{Invalid, Place, Rule};
use crate::targets::check_traffic;
use crate::templates::check_template;
use crate::verdict::keep;
use json_tree::Text;
use resource_types::{ClientKind, Manifest, ManifestSpec};
use serve_names::is_label;

/// The longest name of a Service, a Configuration or a Route, in bytes.
pub(crate) const LONGEST_NAME: u64 = 42;

/// Whether a manifest with its defaults keeps the rules, and if not, the first that it breaks.
///
/// The rules are examined in this order: the name; for a Service and a Configuration the template's name, the number
/// of containers, each container's image, the concurrency and the timeout; for a Service and a Route the number of
/// targets, each target, and the sum of the percents. Of each target in turn: whether it names what it may, the
/// Configuration's name, the Revision's name, `latestRevision`, the percent, the form of the tag, and whether an
/// earlier target has the tag. It takes no memory.
#[tactic(auto, unfolding(crate::specs::Rules::rules_of))]
pub fn check(manifest: &Manifest) -> Result<(), Invalid>
    ensures { result ≡ first_fault (rules_of manifest.now) }
{
    let is_name = is_label(manifest.name.bytes(), LONGEST_NAME);
    keep(Place::MetadataName, Rule::Name, is_name)?;
    check_spec(&manifest.name, &manifest.spec)
}

#[tactic(auto, unfolding(crate::specs::Rules::spec_lines), using(crate::proofs::Steps::fault_of_both))]
fn check_spec(name: &Text, spec: &ManifestSpec) -> Result<(), Invalid>
    ensures { result ≡ first_fault (spec_lines name.now spec.now) }
{
    match spec {
        ManifestSpec::Service { template, traffic } => {
            check_template(name, template)?;
            check_traffic(ClientKind::Service, name, traffic.as_slice())
        }
        ManifestSpec::Configuration { template } => check_template(name, template),
        ManifestSpec::Route { traffic } => {
            check_traffic(ClientKind::Route, name, traffic.as_slice())
        }
    }
}
