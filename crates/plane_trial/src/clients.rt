//! What a client asks of a plane, in the namespace `default`.
ghost use Rattle.std.specs.Prelude.{◌≤◌, IfOk};
ghost use Rattle.std.specs.Option.{ForSome};
ghost use Rattle.manifest_intake.specs.Bodies.{IsReadable};
ghost use Rattle.api_outcomes.specs.Outcomes.{TakesWrite, CanBeMade, IsFit};

use answers::Stop;
use api_calls::{creating, removing, replacing};
use api_outcomes::{Outcome, Refusal, reply_to_call};
use api_puts::Place;
use json_tree::Json;
use manifest_intake::{ManifestRefusal, read_body};
use resource_types::{ClientKind, Kind, Object};
use std::alloc::{AllocError, Global};
use step_scheduler::Plane;
use version_store::{Plan, Store};

const SPACE: &str = "default";

/// A call of a client that writes.
#[derive(Clone, Copy, Debug)]
pub enum Ask<'a> {
    /// Makes the object of this manifest.
    Create(ClientKind, &'a str),
    /// Puts this manifest in place of the object of this name.
    Replace(ClientKind, &'a str, &'a str),
    /// Removes the object of this name.
    Remove(Kind, &'a str),
}

// The value of a body.
fn json_in(alloc: Global, text: &str) -> Result<Json, Stop<Refusal>>
    ensures { IfOk result IsReadable }
{
    match read_body(alloc, text.as_bytes())? {
        Some(json) => Ok(json),
        None => Err(Stop::Refused(Refusal::Manifest(ManifestRefusal::UnreadableBody))),
    }
}

// What the call comes to, or why it is refused.
#[tactic(auto, unfolding(serve_names::specs::Labels::is_label_of))]
fn called(
    alloc: Global,
    store: &Store<Object>,
    moment: u64,
    ask: Ask<'_>,
) -> Result<Outcome, Stop<Refusal>>
    requires { TakesWrite store.now.entries }
    ensures { IfOk result (IsFit store.now.entries) }
{
    match ask {
        Ask::Create(kind, body) => {
            let json = json_in(alloc, body)?;
            creating(alloc, store, moment, kind, SPACE, &json)
        }
        Ask::Replace(kind, name, body) => {
            let json = json_in(alloc, body)?;
            let place = Place {
                kind,
                space: SPACE,
                name,
            };
            replacing(alloc, store, moment, place, &json)
        }
        Ask::Remove(kind, name) => removing(alloc, store, kind, SPACE, name),
    }
}

// What the call comes to.
fn outcome_of(
    alloc: Global,
    store: &Store<Object>,
    moment: u64,
    ask: Ask<'_>,
) -> Result<Outcome, AllocError>
    requires { TakesWrite store.now.entries }
    ensures { IfOk result (IsFit store.now.entries) }
{
    reply_to_call(alloc, called(alloc, store, moment, ask))
}

// Makes the write, if there is one.
fn write(plane: &mut Plane, plan: Option<Plan<Object>>)
    requires spare { 1 ≤ plane.old.spare }
    requires room { TakesWrite plane.old.plane.journal }
    requires plan { ForSome plan (CanBeMade plane.old.plane.journal) }
{
    if let Some(plan) = plan {
        let _applied = plane.client_write(plan);
    }
}

/// Makes the call. The answer is the code of its reply.
pub fn make(alloc: Global, plane: &mut Plane, ask: Ask<'_>) -> Result<u16, AllocError> {
    plane.prepare()?;
    let outcome = outcome_of(alloc, plane.store(), plane.now(), ask)?;
    write(plane, outcome.plan);
    Ok(outcome.reply.code)
}
