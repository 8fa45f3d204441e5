//! Examining the value of a body.
ghost use Rattle.std.specs.Prelude.{IsTrue, IfOk};
ghost use Rattle.answers.specs.Answers.{Comes};
ghost use Rattle.json_tree.specs.Tree.{is_well_formed, depth_of};
ghost use Rattle.resource_codec.specs.Shape.{shape};
ghost use Rattle.validation.specs.Defaults.{defaults_of};
ghost use Rattle.validation.specs.Rules.{first_fault, rules_of};
ghost use Rattle.manifest_intake.specs.Intake as spec;
ghost use Rattle.manifest_intake.specs.Seen.{purpose_seen};

use crate::matching::{Purpose, match_parts};
use crate::refusal::ManifestRefusal;
use answers::Stop;
use json_tree::Json;
use resource_codec::{DecodeError, decode};
use resource_types::{ClientKind, Manifest};
use std::alloc::Global;
use validation::{check, with_defaults};

/// The manifest that a value has the shape of.
fn shaped(alloc: Global, kind: ClientKind, json: &Json) -> Result<Manifest, Stop<ManifestRefusal>>
    ensures value { Comes result (spec.shaped (shape kind json.now)) }
    ensures sound { IsTrue (is_well_formed json.now) → IfOk result (spec.IsSound kind (depth_of json.now)) }
{
    match decode(alloc, kind, json) {
        Ok(manifest) => Ok(manifest),
        Err(DecodeError::Shape(field)) => Err(Stop::Refused(ManifestRefusal::WrongShape(field))),
        Err(DecodeError::Memory) => Err(Stop::Memory),
    }
}

/// Whether a manifest with its defaults keeps the rules.
fn keep_rules(manifest: &Manifest) -> Result<(), Stop<ManifestRefusal>>
    ensures { Comes result (spec.ruled (first_fault (rules_of manifest.now))) }
{
    match check(manifest) {
        Ok(()) => Ok(()),
        Err(invalid) => Err(Stop::Refused(ManifestRefusal::Broken(invalid))),
    }
}

/// The manifest of a kind that a value gives, with its defaults. It is refused for the first of these reasons: its
/// shape; a part that doesn't match what it is sent to; a version where nothing is replaced; a rule that it breaks.
#[tactic(auto, unfolding(crate::specs::Intake::accepted))]
pub fn accept(
    alloc: Global,
    purpose: Purpose<'_>,
    kind: ClientKind,
    json: &Json,
) -> Result<Manifest, Stop<ManifestRefusal>>
    ensures value { Comes result (spec.accepted (purpose_seen purpose.entry) kind json.now) }
    // The spec is of the kind. Of a well-formed value, the rest of a pod spec is well formed and three levels less deep, and the names of labels rise.
    ensures sound { IsTrue (is_well_formed json.now) → IfOk result (spec.IsSound kind (depth_of json.now)) }
{
    let manifest = shaped(alloc, kind, json)?;
    match_parts(purpose, kind, &manifest)?;
    let full = with_defaults(alloc, manifest)?;
    keep_rules(&full)?;
    Ok(full)
}
