//! The status last: the same for every controller.
ghost use Rattle.std.specs.Prelude.{◌≡◌, option_map, IfOk};
ghost use Rattle.resource_types.specs.Objects.{status_of};
ghost use Rattle.control_rules.specs.Standing.{with_status};
ghost use Rattle.control_rules.specs.Differences.{replacement, same_untimed, status_change, timed};
ghost use Rattle.controller_parts.specs.Plans.{settling_plan};
ghost use Rattle.controller_parts.specs.Views.{due_plan};

use crate::due::Due;
use crate::plans::frame_of;
use crate::sameness::same_untimed;
use conditions::settle_times;
use json_tree::Copied;
use resource_types::{Object, ObjectStatus, with_status};
use std::alloc::{AllocError, Global};
use version_store::Plan;

/// An object that stands, the other status that is due to it, and the moment.
#[derive(Drop)]
pub struct Settling {
    /// The object.
    pub object: Object,
    /// The status, without times.
    pub status: ObjectStatus,
    /// The moment of the look.
    pub moment: u64,
}

// The new status with its times.
fn timed(
    alloc: Global,
    old: &ObjectStatus,
    new: &ObjectStatus,
    now: u64,
) -> Result<ObjectStatus, AllocError>
    ensures { IfOk result (λ status. status ≡ timed old.now new.now now) }
{
    let ObjectStatus {
        observed,
        created,
        ready,
        url,
        traffic,
        conditions,
    } = new.copy(alloc)?;
    Ok(ObjectStatus {
        observed,
        created,
        ready,
        url,
        traffic,
        conditions: settle_times(&old.conditions, conditions, now),
    })
}

// The object gets the status.
fn change_from(
    alloc: Global,
    object: &Object,
    old: &ObjectStatus,
    new: &ObjectStatus,
    now: u64,
) -> Result<Plan<Object>, AllocError>
    ensures { IfOk result (λ plan. plan ≡ replacement object.now (with_status (timed old.now new.now now) object.now.body)) }
{
    let frame = frame_of(alloc, object)?;
    let body = object.body.copy(alloc)?;
    let status = timed(alloc, old, new, now)?;
    Ok(frame.with(with_status(body, status)))
}

impl Settling {
    /// The object gets the status, with its times.
    pub fn plan(&self, alloc: Global) -> Result<Plan<Object>, AllocError>
        ensures { IfOk result (λ plan. plan ≡ settling_plan self.now) }
    {
        match self.object.body.status() {
            Some(old) => change_from(alloc, &self.object, old, &self.status, self.moment),
            None => {
                let old = ObjectStatus::empty(alloc)?;
                change_from(alloc, &self.object, &old, &self.status, self.moment)
            }
        }
    }
}

// Whether the object has the status, apart from times.
fn has_status(alloc: Global, object: &Object, new: &ObjectStatus) -> Result<bool, AllocError>
    ensures { IfOk result (λ has. has ≡ same_untimed (status_of object.now.body) new.now) }
{
    match object.body.status() {
        Some(old) => Ok(same_untimed(old, new)),
        None => {
            let old = ObjectStatus::empty(alloc)?;
            Ok(same_untimed(&old, new))
        }
    }
}

/// The object gets the status, where it has another apart from times.
pub fn settle(
    alloc: Global,
    object: &Object,
    status: ObjectStatus,
    now: u64,
) -> Result<Option<Due>, AllocError>
    ensures { IfOk result (λ due. option_map due_plan due ≡ status_change object.now status now) }
{
    let has = has_status(alloc, object, &status)?;
    if has {
        return Ok(None);
    }
    Ok(Some(Due::Status(Settling {
        object: object.copy(alloc)?,
        status,
        moment: now,
    })))
}
