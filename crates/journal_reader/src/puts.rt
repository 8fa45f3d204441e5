//! What a client put, by the text of its manifest.
ghost use Rattle.std.specs.Prelude.{◌≡◌, ◌≤◌, IsTrue, IfOk};
ghost use Rattle.json_tree.specs.Tree.{is_well_formed, depth_of};
ghost use Rattle.json_tree.specs.declared.value.Json.TheViews.{out-Json};
ghost use Rattle.resource_codec.specs.Written.{kind_of};
ghost use Rattle.manifest_intake.specs.Intake.{IsSound};
ghost use Rattle.journal_text.specs.Lines.{manifest_text};
ghost use Rattle.journal_reader.specs.Answers.{Reads, Gives};
ghost use Rattle.journal_reader.specs.Deeds as spec;
ghost use Rattle.journal_reader.specs.Deeds.{IsGoodDeed, IsAsked, asked_in};

use crate::deeds::Deed;
use crate::error::ReadError;
use crate::members::{json_in, object, text};
use crate::words::client_kind_named;
use answers::Stop;
use json_tree::{Json, Text};
use manifest_intake::{Purpose, accept};
use resource_types::{ClientKind, Manifest};
use serve_names::is_label;
use std::alloc::Global;

/// The longest name of a namespace, in bytes.
const LONGEST_NAMESPACE: u64 = 63;

/// The kind that a manifest says.
#[tactic(auto, unfolding(crate::specs::Deeds::kind_in))]
fn kind_in(json: &Json) -> Result<ClientKind, ReadError>
    ensures { Gives (λ k. k) result (spec.kind_in json.now) }
{
    let members = object(json)?;
    client_kind_named(text(members, "kind")?)
}

/// The manifest of a kind that a value gives by itself, with its defaults.
fn manifest_in(alloc: Global, kind: ClientKind, json: &Json) -> Result<Manifest, ReadError>
    ensures value { Gives (λ m. m) result (spec.manifest_in kind json.now) }
    ensures sound { IsTrue (is_well_formed json.now) → IfOk result (IsSound kind (depth_of json.now)) }
{
    match accept(alloc, Purpose::Check, kind, json) {
        Ok(manifest) => Ok(manifest),
        Err(Stop::Refused(_)) => Err(ReadError::Refused),
        Err(Stop::Memory) => Err(ReadError::Memory),
    }
}

/// What a client put, by the value of its manifest.
#[tactic(auto, unfolding(crate::specs::Deeds::asked_in))]
fn asked_in(alloc: Global, json: &Json) -> Result<Deed, ReadError>
    ensures value { Gives (λ d. d) result (asked_in json.now) }
    ensures good { IsTrue (is_well_formed json.now) → depth_of json.now ≤ 32 → IfOk result IsGoodDeed }
{
    let kind = kind_in(json)?;
    let manifest = manifest_in(alloc, kind, json)?;
    if is_label(manifest.namespace.bytes(), LONGEST_NAMESPACE) {
        Ok(Deed::Put { kind, manifest })
    } else {
        Err(ReadError::Refused)
    }
}

/// What a client put, by the text of its manifest.
pub(crate) fn put_in(alloc: Global, text: &Text) -> Result<Deed, ReadError>
    ensures good { IfOk result IsGoodDeed }
    // A text that a manifest of what may be put has is read as that manifest.
    ensures found { (manifest : Manifest) → IsAsked manifest → text.now ≡ manifest_text manifest
        → Reads result (Deed.Put (kind_of manifest.spec) manifest) }
{
    let json = json_in(alloc, text.bytes())?;
    asked_in(alloc, &json)
}
