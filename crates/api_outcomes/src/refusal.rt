//! Why a request is refused.
ghost use Rattle.std.specs.Prelude.{◌≡◌, ◌++◌, codes, string_bytes, IfOk};
ghost use Rattle.api_outcomes.specs.Refusals as spec;

use json_tree::Text;
use manifest_intake::ManifestRefusal;
use resource_types::{Kind, decimal_text};
use std::alloc::{AllocError, Global};

/// Why a request is refused.
#[derive(Debug, Drop)]
pub enum Refusal {
    /// The path names nothing that is there.
    NoSuchPath,
    /// The manifest is refused.
    Manifest(ManifestRefusal),
    /// A replacement gives no version.
    VersionMissing,
    /// An object of the name stands.
    AlreadyExists {
        kind: Kind,
        name: Text,
    },
    /// No object of the name stands.
    NotFound {
        kind: Kind,
        name: Text,
    },
    /// Another version stands than the one that is given.
    Conflict {
        kind: Kind,
        name: Text,
        version: u64,
    },
    /// The template changed, and the name that it gives its Revision didn't.
    KeptName,
    /// The Revision of the name is in use.
    InUse {
        name: Text,
    },
    /// A poll goes on from a version beyond the newest.
    BeyondNewest {
        after: u64,
        newest: u64,
    },
}

fn plural_of(kind: Kind) -> &'static str
    ensures { result.now ≡ spec.plural_of kind }
{
    match kind {
        Kind::Service => "services",
        Kind::Configuration => "configurations",
        Kind::Revision => "revisions",
        Kind::Route => "routes",
        Kind::Health => "health",
        Kind::Table => "tables",
    }
}

impl Refusal {
    /// The code of the reply.
    pub fn code(&self) -> u16
        ensures { result ≡ spec.code_of self.now }
    {
        match self {
            Refusal::NoSuchPath => 404,
            Refusal::Manifest(refusal) => refusal.code(),
            Refusal::VersionMissing => 422,
            Refusal::AlreadyExists { .. } => 409,
            Refusal::NotFound { .. } => 404,
            Refusal::Conflict { .. } => 409,
            Refusal::KeptName => 422,
            Refusal::InUse { .. } => 409,
            Refusal::BeyondNewest { .. } => 400,
        }
    }

    /// The reason in one word.
    pub fn reason(&self) -> &'static str
        ensures { result.now ≡ spec.reason_of self.now }
    {
        match self {
            Refusal::NoSuchPath => "NotFound",
            Refusal::Manifest(refusal) => refusal.reason(),
            Refusal::VersionMissing => "Invalid",
            Refusal::AlreadyExists { .. } => "AlreadyExists",
            Refusal::NotFound { .. } => "NotFound",
            Refusal::Conflict { .. } => "Conflict",
            Refusal::KeptName => "Invalid",
            Refusal::InUse { .. } => "InUse",
            Refusal::BeyondNewest { .. } => "BadRequest",
        }
    }

    /// The message for a reader.
    pub fn message(&self, alloc: Global) -> Result<String, AllocError>
        ensures { IfOk result (λ s. string_bytes s ≡ spec.message_of self.now) }
    {
        match self {
            Refusal::NoSuchPath => String::from_str(alloc, "no such path"),
            Refusal::Manifest(refusal) => refusal.message(alloc),
            Refusal::VersionMissing => {
                String::from_str(alloc, "metadata.resourceVersion: must be given")
            }
            Refusal::AlreadyExists { kind, name } => {
                object_message(alloc, *kind, name, "already exists")
            }
            Refusal::NotFound { kind, name } => object_message(alloc, *kind, name, "not found"),
            Refusal::Conflict {
                kind,
                name,
                version,
            } => conflict_message(alloc, *kind, name, *version),
            Refusal::KeptName => String::from_str(
                alloc,
                "spec.template.metadata.name: the template changed under a kept name",
            ),
            Refusal::InUse { name } => object_message(alloc, Kind::Revision, name, "is in use"),
            Refusal::BeyondNewest { after, newest } => beyond_message(alloc, *after, *newest),
        }
    }
}

fn object_message(alloc: Global, kind: Kind, name: &Text, says: &str) -> Result<String, AllocError>
    ensures { IfOk result (λ s. string_bytes s ≡ spec.object_message kind name.now says.now) }
{
    sentence(alloc, plural_of(kind), name.as_str(), says)
}

fn sentence(alloc: Global, plural: &str, name: &str, says: &str) -> Result<String, AllocError>
    ensures { IfOk result (λ s. string_bytes s ≡ plural.now ++ codes " \"" ++ name.now ++ codes "\" " ++ says.now) }
{
    let mut text = String::from_str(alloc, plural)?;
    text.push_str(" \"")?;
    text.push_str(name)?;
    text.push_str("\" ")?;
    text.push_str(says)?;
    Ok(text)
}

fn version_says(alloc: Global, version: u64) -> Result<String, AllocError>
    ensures { IfOk result (λ s. string_bytes s ≡ spec.version_says version) }
{
    format!(in alloc; "has version {version}")
}

fn conflict_message(
    alloc: Global,
    kind: Kind,
    name: &Text,
    version: u64,
) -> Result<String, AllocError>
    ensures { IfOk result (λ s. string_bytes s ≡ spec.object_message kind name.now (spec.version_says version)) }
{
    let says = version_says(alloc, version)?;
    object_message(alloc, kind, name, says.as_str())
}

fn beyond_message(alloc: Global, after: u64, newest: u64) -> Result<String, AllocError>
    ensures { IfOk result (λ s. string_bytes s ≡ spec.beyond_message after newest) }
{
    let mut text = String::from_str(alloc, "resourceVersion ")?;
    text.push_str(decimal_text(alloc, after)?.as_str())?;
    text.push_str(" is beyond ")?;
    text.push_str(decimal_text(alloc, newest)?.as_str())?;
    Ok(text)
}
