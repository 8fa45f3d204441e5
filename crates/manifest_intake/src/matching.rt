//! What a manifest must match.
ghost use Rattle.std.specs.Prelude.{◌≡◌};
ghost use Rattle.answers.specs.Answers.{Comes};
ghost use Rattle.manifest_intake.specs.Intake as spec;
ghost use Rattle.manifest_intake.specs.Seen.{purpose_seen};

use crate::refusal::{ManifestRefusal, Part};
use answers::{Stop, require};
use json_tree::Text;
use resource_types::{ClientKind, Manifest, api_version};
use serve_names::is_label;

/// The longest name of a namespace, in bytes.
const LONGEST_NAMESPACE: u64 = 63;

/// What a manifest is for.
#[derive(Clone, Copy, Debug)]
pub enum Purpose<'a> {
    /// To make an object in this namespace.
    Create {
        /// A label.
        space: &'a str,
    },
    /// To take the place of the object of this namespace and name.
    Replace {
        /// A label.
        space: &'a str,
        /// A simple name.
        name: &'a str,
    },
    /// To be checked by itself, for any namespace.
    Check,
}

fn fits_namespace(purpose: Purpose<'_>, given: &Text) -> bool
    ensures { result ≡ spec.fits_namespace (purpose_seen purpose.entry) given.now }
{
    given.is_empty()
        || match purpose {
            Purpose::Create { space } | Purpose::Replace { space, .. } => given.as_str() == space,
            Purpose::Check => is_label(given.bytes(), LONGEST_NAMESPACE),
        }
}

fn fits_name(purpose: Purpose<'_>, given: &Text) -> bool
    ensures { result ≡ spec.fits_name (purpose_seen purpose.entry) given.now }
{
    match purpose {
        Purpose::Replace { name, .. } => given.as_str() == name,
        _ => true,
    }
}

fn fits_version(purpose: Purpose<'_>, given: &Text) -> bool
    ensures { result ≡ spec.fits_version (purpose_seen purpose.entry) given.now }
{
    match purpose {
        Purpose::Replace { .. } => true,
        _ => given.is_empty(),
    }
}

/// Whether a manifest is for what it is sent to: the first part that doesn't match refuses it.
#[tactic(auto, unfolding(crate::specs::Intake::matched))]
pub(crate) fn match_parts(
    purpose: Purpose<'_>,
    kind: ClientKind,
    manifest: &Manifest,
) -> Result<(), Stop<ManifestRefusal>>
    ensures { Comes result (spec.matched (purpose_seen purpose.entry) kind manifest.now) }
{
    let is_api = manifest.api.is(api_version());
    require(is_api, ManifestRefusal::Mismatch(Part::ApiVersion))?;
    let is_kind = manifest.kind.is(kind.as_str());
    require(is_kind, ManifestRefusal::Mismatch(Part::Kind))?;
    let is_space = fits_namespace(purpose, &manifest.namespace);
    require(is_space, ManifestRefusal::Mismatch(Part::Namespace))?;
    let is_name = fits_name(purpose, &manifest.name);
    require(is_name, ManifestRefusal::Mismatch(Part::Name))?;
    require(
        fits_version(purpose, &manifest.version),
        ManifestRefusal::VersionGiven,
    )
}
