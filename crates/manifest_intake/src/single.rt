//! A manifest that is checked by itself.
ghost use Rattle.std.specs.Prelude.{◌≡◌, ◌≤◌, IsTrue, IfOk};
ghost use Rattle.answers.specs.Answers.{Comes};
ghost use Rattle.json_tree.specs.Tree.{is_well_formed, depth_of};
ghost use Rattle.resource_codec.specs.Written.{IsWell};
ghost use Rattle.manifest_intake.specs.Intake as spec;

use crate::body::read_body;
use crate::intake::accept;
use crate::matching::Purpose;
use crate::refusal::{ManifestRefusal, Part};
use answers::Stop;
use json_tree::{Json, Members, Text};
use resource_codec::Field;
use resource_types::{ClientKind, Manifest};
use std::alloc::Global;

fn kind_named(word: &Text) -> Option<ClientKind>
    ensures { result ≡ spec.kind_named word.now }
{
    match word.as_str() {
        "Service" => Some(ClientKind::Service),
        "Configuration" => Some(ClientKind::Configuration),
        "Route" => Some(ClientKind::Route),
        _ => None,
    }
}

/// The kind that a value says by itself.
#[tactic(auto, unfolding(crate::specs::Intake::kind_said))]
fn kind_in(json: &Json) -> Result<ClientKind, Stop<ManifestRefusal>>
    ensures { Comes result (spec.kind_said json.now) }
{
    let members = match json {
        Json::Obj(members) => members,
        _ => return Err(Stop::Refused(ManifestRefusal::WrongShape(Field::Body))),
    };
    match members.get("apiVersion") {
        Some(Json::Str(_)) => {}
        _ => return Err(Stop::Refused(ManifestRefusal::WrongShape(Field::ApiVersion))),
    }
    let word = match members.get("kind") {
        Some(Json::Str(word)) => word,
        _ => return Err(Stop::Refused(ManifestRefusal::WrongShape(Field::Kind))),
    };
    match kind_named(word) {
        Some(kind) => Ok(kind),
        None => Err(Stop::Refused(ManifestRefusal::Mismatch(Part::Kind))),
    }
}

#[tactic(auto, unfolding(crate::specs::Intake::checked))]
fn check_value(alloc: Global, json: &Json) -> Result<Manifest, Stop<ManifestRefusal>>
    ensures value { Comes result (spec.checked json.now) }
    ensures well { IsTrue (is_well_formed json.now) → depth_of json.now ≤ 32 → IfOk result IsWell }
{
    let kind = kind_in(json)?;
    accept(alloc, Purpose::Check, kind, json)
}

/// The manifest that the bytes of a body give by themselves, with its defaults. Its kind is the one that it says; any
/// namespace that is a label fits. It is refused for the first reason that holds: behind the texts `apiVersion` and `kind` a
/// kind that isn't one of the three, and then as a manifest that is to make an object is: the rest of its shape, another
/// `apiVersion`, and so on.
pub fn check_body(alloc: Global, bytes: &[u8]) -> Result<Manifest, Stop<ManifestRefusal>>
    ensures checks { spec.Checks bytes.now result }
    // The manifest can be written.
    ensures well { IfOk result IsWell }
{
    match read_body(alloc, bytes)? {
        Some(json) => check_value(alloc, &json),
        None => Err(Stop::Refused(ManifestRefusal::UnreadableBody)),
    }
}
