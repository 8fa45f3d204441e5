//! Why a manifest is refused.
ghost use Rattle.std.specs.Prelude.{◌≡◌, ◌++◌, codes, string_bytes, IfOk};
ghost use Rattle.manifest_intake.specs.Refusals.{part_path, code_of, reason_of, message_of};

use resource_codec::{Field, path_text};
use std::alloc::{AllocError, Global};
use validation::{Invalid, place_text, rule_text};

/// A part of a manifest that must match what it is sent to.
#[derive(Clone, Copy, Debug, Drop, PartialEq, Eq)]
pub enum Part {
    /// `apiVersion`, which is `serving.knative.dev/v1`.
    ApiVersion,
    /// `kind`, which is that of the path.
    Kind,
    /// `metadata.namespace`, which is that of the path where it is given.
    Namespace,
    /// `metadata.name`, which is that of the path where the path has one.
    Name,
}

/// Why a manifest is refused. The variants are examined in this order, and the parts in theirs.
#[derive(Clone, Copy, Debug, Drop, PartialEq, Eq)]
pub enum ManifestRefusal {
    /// The body isn't readable JSON.
    UnreadableBody,
    /// The value has not the shape of a manifest of the kind: this field is the first that is wrong.
    WrongShape(Field),
    /// The manifest isn't for what it is sent to: this part is the first that doesn't match.
    Mismatch(Part),
    /// A version is given where nothing is replaced.
    VersionGiven,
    /// With its defaults, the manifest breaks this rule first.
    Broken(Invalid),
}

impl Part {
    /// The path of the part in a manifest.
    pub fn path(self) -> &'static str
        ensures { result.now ≡ part_path self }
    {
        match self {
            Part::ApiVersion => "apiVersion",
            Part::Kind => "kind",
            Part::Namespace => "metadata.namespace",
            Part::Name => "metadata.name",
        }
    }
}

impl ManifestRefusal {
    /// The code of the reply: 422 for a broken rule, and 400 for all else.
    pub fn code(self) -> u16
        ensures { result ≡ code_of self }
    {
        match self {
            ManifestRefusal::Broken(_) => 422,
            _ => 400,
        }
    }

    /// The reason in one word.
    pub fn reason(self) -> &'static str
        ensures { result.now ≡ reason_of self }
    {
        match self {
            ManifestRefusal::Broken(_) => "Invalid",
            _ => "BadRequest",
        }
    }

    /// The message for a reader.
    pub fn message(self, alloc: Global) -> Result<String, AllocError>
        ensures { IfOk result (λ s. string_bytes s ≡ message_of self) }
    {
        match self {
            ManifestRefusal::UnreadableBody => {
                String::from_str(alloc, "the body is not readable JSON")
            }
            ManifestRefusal::WrongShape(field) => wrong_shape(alloc, field),
            ManifestRefusal::Mismatch(part) => mismatch(alloc, part),
            ManifestRefusal::VersionGiven => {
                String::from_str(alloc, "metadata.resourceVersion must be absent")
            }
            ManifestRefusal::Broken(invalid) => broken(alloc, invalid),
        }
    }
}

fn wrong_shape(alloc: Global, field: Field) -> Result<String, AllocError>
    ensures { IfOk result (λ s. string_bytes s ≡ message_of (ManifestRefusal.WrongShape field)) }
{
    let path = path_text(alloc, field)?;
    let path = path.as_str();
    format!(in alloc; "wrong shape at {path}")
}

fn mismatch(alloc: Global, part: Part) -> Result<String, AllocError>
    ensures { IfOk result (λ s. string_bytes s ≡ message_of (ManifestRefusal.Mismatch part)) }
{
    let path = part.path();
    format!(in alloc; "{path} does not match the path")
}

fn broken(alloc: Global, invalid: Invalid) -> Result<String, AllocError>
    ensures { IfOk result (λ s. string_bytes s ≡ message_of (ManifestRefusal.Broken invalid)) }
{
    let place = place_text(alloc, invalid.place)?;
    sentence(alloc, place.as_str(), rule_text(invalid.rule))
}

fn sentence(alloc: Global, place: &str, rule: &str) -> Result<String, AllocError>
    ensures { IfOk result (λ s. string_bytes s ≡ place.now ++ codes ": " ++ rule.now) }
{
    format!(in alloc; "{place}: {rule}")
}
