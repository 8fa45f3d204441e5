//! Removing an object.
ghost use Rattle.std.specs.Prelude.{◌≡◌, not, IfOk};
ghost use Rattle.answers.specs.Answers.{Comes, requires_that};
ghost use Rattle.api_calls.specs.Calls as spec;
ghost use Rattle.resource_types.specs.Lookups.{Journal, state};
ghost use Rattle.resource_codec.specs.Storable.{AreStorable};
ghost use Rattle.api_outcomes.specs.Outcomes.{IsClientRemoval, IsFit};

use crate::lookups::there;
use answers::{Stop, require};
use api_outcomes::{Outcome, Refusal, removed};
use json_tree::Copied;
use resource_types::{Kind, Object, in_use};
use std::alloc::{AllocError, Global};
use version_store::{Change, Expect, Plan, Store};

/// Whether clients remove objects of the kind.
fn is_removable(kind: Kind) -> bool
    ensures { result ≡ spec.is_removable kind }
{
    match kind {
        Kind::Service | Kind::Configuration | Kind::Revision | Kind::Route => true,
        _ => false,
    }
}

/// Whether the object is a Revision that is in use.
fn is_used(store: &Store<Object>, kind: Kind, object: &Object) -> bool
    ensures { result ≡ spec.is_used store.now.entries kind object.now }
{
    match kind {
        Kind::Revision => in_use(store, &object.key.name),
        _ => false,
    }
}

/// Nothing where the object isn't in use, and else that it is.
fn require_unused(
    alloc: Global,
    store: &Store<Object>,
    kind: Kind,
    object: &Object,
) -> Result<(), Stop<Refusal>>
    ensures { Comes result (requires_that (not (spec.is_used store.now.entries kind object.now)) (Refusal.InUse object.now.key.name.name)) }
{
    if is_used(store, kind, object) {
        let name = object.key.name.name.copy(alloc)?;
        return Err(Stop::Refused(Refusal::InUse { name }));
    }
    Ok(())
}

/// The removal of an object, as it stands.
fn removal_of(alloc: Global, object: &Object) -> Result<Outcome, AllocError>
    ensures value { IfOk result (λ o. o ≡ spec.removes object.now) }
    ensures fits { (journal : Journal) → IsClientRemoval (state journal) object.now.key → IfOk result (IsFit journal) }
{
    let reply = removed(alloc)?;
    let key = object.key.copy(alloc)?;
    let plan = Plan {
        key,
        expect: Expect::At(object.meta.stamp.version),
        guarded: false,
        change: Change::Remove,
    };
    Ok(Outcome {
        reply,
        plan: Some(plan),
    })
}

/// Removes the object of a namespace and a name.
///
/// It is refused for the first of these that holds: `NoSuchPath`, where clients don't remove the kind, `NotFound`, and `InUse`, where
/// it is a Revision that is in use.
#[tactic(auto, unfolding(crate::specs::Calls::removing))]
pub fn removing(
    alloc: Global,
    store: &Store<Object>,
    kind: Kind,
    space: &str,
    name: &str,
) -> Result<Outcome, Stop<Refusal>>
    requires { AreStorable store.now.entries }
    ensures answer { Comes result (spec.removing store.now.entries kind space.now name.now) }
    ensures fits { IfOk result (IsFit store.now.entries) }
{
    require(is_removable(kind), Refusal::NoSuchPath)?;
    let object = there(alloc, store, kind, space, name)?;
    require_unused(alloc, store, kind, object)?;
    Ok(removal_of(alloc, object)?)
}
