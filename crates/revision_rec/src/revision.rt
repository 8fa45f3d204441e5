//! The look of the Revision controller.
ghost use Rattle.std.specs.Prelude.{◌≡◌, ◌&&◌, option_map, IfOk};
ghost use Rattle.resource_types.specs.Lookups.{state, is_free};
ghost use Rattle.control_rules.specs.Standing.{is_orphan};
ghost use Rattle.control_rules.specs.Readings.{revision_status_in};
ghost use Rattle.control_rules.specs.NextRevision.{revision_next};
ghost use Rattle.controller_parts.specs.Views.{due_plan};
ghost use Rattle.revision_rec.specs.Laws.{revision_makeable_of};

use crate::health::reported_in;
use crate::statuses::revision_status;
use controller_parts::{Due, is_orphan, plan_of, removal_of, settle, standing};
use resource_types::{Kind, Name, Object, ObjectStatus, is_free};
use std::alloc::{AllocError, Global};
use version_store::{Plan, Reconciler, Store};

/// The Revision controller. On a Revision that stands: where its owner is gone and it is free, it is removed, guarded;
/// else it gets the status that its Health gives it, where it has another.
#[derive(Drop)]
pub struct RevisionRec {}

// The status that is due to the Revision.
fn status_due(
    alloc: Global,
    store: &Store<Object>,
    revision: &Object,
) -> Result<ObjectStatus, AllocError>
    ensures { IfOk result (λ s. s ≡ revision_status_in (state store.now.entries) revision.now) }
{
    let health = standing(
        store,
        Kind::Health,
        &revision.key.name.space,
        &revision.key.name.name,
    );
    let reported = reported_in(revision.meta.stamp.uid, health);
    let status = revision_status(alloc, revision.meta.stamp.generation, reported)?;
    Ok(status)
}

// Whether the Revision's owner is gone, and it is free.
fn is_left(store: &Store<Object>, name: &Name, revision: &Object) -> bool
    ensures { result
        ≡ (is_orphan (state store.now.entries) revision.now && is_free (state store.now.entries) name.now) }
{
    is_orphan(store, revision) && is_free(store, name)
}

// What is due to the Revision of the name.
fn look(
    alloc: Global,
    store: &Store<Object>,
    name: &Name,
    now: u64,
) -> Result<Option<Due>, AllocError>
    ensures { IfOk result (λ view.
        option_map due_plan view ≡ revision_next (state store.now.entries) name.now now) }
{
    let Some(revision) = standing(store, Kind::Revision, &name.space, &name.name) else {
        return Ok(None);
    };
    if is_left(store, name, revision) {
        return Ok(Some(Due::Removal(removal_of(alloc, revision, true)?)));
    }
    let status = status_due(alloc, store, revision)?;
    let due = settle(alloc, revision, status, now)?;
    Ok(due)
}

impl Reconciler<Object> for RevisionRec {
    type View = Option<Due>;

    ghost fits = { λ r st now. Unit {0} };

    ghost next = { λ r st name now. revision_next st name now };

    ghost means = { option_map due_plan };

    fn look(
        &self,
        alloc: Global,
        store: &Store<Object>,
        name: &Name,
        now: u64,
    ) -> Result<Option<Due>, AllocError> {
        look(alloc, store, name, now)
    }

    fn plan(&self, alloc: Global, view: &Option<Due>) -> Result<Option<Plan<Object>>, AllocError> {
        plan_of(alloc, view)
    }

    ghost makeable = { λ r st name now plan e. revision_makeable_of st name now plan e };
}
