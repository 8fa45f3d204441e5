//! Making an object.
ghost use Rattle.std.specs.Prelude.{IsTrue, IfOk};
ghost use Rattle.answers.specs.Answers.{Comes};
ghost use Rattle.serve_names.specs.Labels.{is_label_of};
ghost use Rattle.manifest_intake.specs.Bodies.{IsReadable};
ghost use Rattle.api_outcomes.specs.Outcomes.{TakesWrite, IsFit};
ghost use Rattle.api_calls.specs.Calls as spec;

use crate::lookups::{not_there, object_at};
use crate::manifests::manifest_in;
use answers::Stop;
use api_outcomes::{Outcome, Refusal};
use api_puts::{Place, make};
use json_tree::Json;
use manifest_intake::Purpose;
use resource_types::{ClientKind, Object};
use std::alloc::Global;
use version_store::Store;

/// Makes the object that the value of a body asks for in a namespace.
///
/// It is refused for the first of these that holds: a reason to refuse the manifest, and `AlreadyExists`.
#[tactic(auto, unfolding(crate::specs::Calls::creating))]
pub fn creating(
    alloc: Global,
    store: &Store<Object>,
    moment: u64,
    kind: ClientKind,
    space: &str,
    json: &Json,
) -> Result<Outcome, Stop<Refusal>>
    requires journal { TakesWrite store.now.entries }
    requires label { IsTrue (is_label_of space.now 63) }
    requires body { IsReadable json.now }
    ensures answer { Comes result (spec.creating store.now.entries moment kind space.now json.now) }
    ensures fits { IfOk result (IsFit store.now.entries) }
{
    let manifest = manifest_in(alloc, Purpose::Create { space }, kind, json)?;
    let name = manifest.name.copy(alloc)?;
    let place = Place {
        kind,
        space,
        name: name.as_str(),
    };
    let of_kind = kind.kind();
    let found = object_at(store, of_kind, space, place.name);
    not_there(alloc, of_kind, place.name, found)?;
    Ok(make(alloc, store, moment, place, manifest)?)
}
