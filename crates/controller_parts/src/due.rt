//! What is due to an object: what a look of each controller keeps.
ghost use Rattle.std.specs.Prelude.{◌≡◌, option_map, IfOk};
ghost use Rattle.control_rules.specs.Differences.{creation, replacement};
ghost use Rattle.controller_parts.specs.Views.{due_plan};

use crate::plans::{Removed, frame_of};
use crate::settling::Settling;
use json_tree::Copied;
use resource_types::Object;
use std::alloc::{AllocError, Global};
use version_store::{Change, Expect, Plan};

/// What is due to an object, by the first difference that a look found. Where none holds, a look keeps no such value.
#[derive(Drop)]
pub enum Due {
    /// The object goes.
    Removal(Removed),
    /// The object is made.
    Creation(Object),
    /// The object that stands gets this body: key and stamp are as they stand.
    Replacement(Object),
    /// The object that stands gets the status: it has another.
    Status(Settling),
}

// The object is made where none stands.
fn creation(alloc: Global, object: &Object) -> Result<Plan<Object>, AllocError>
    ensures { IfOk result (λ plan. plan ≡ creation object.now) }
{
    Ok(Plan {
        key: object.key.copy(alloc)?,
        expect: Expect::Absent,
        guarded: false,
        change: Change::Put(object.copy(alloc)?),
    })
}

// The object that stands gets its body.
fn replacement(alloc: Global, object: &Object) -> Result<Plan<Object>, AllocError>
    ensures { IfOk result (λ plan. plan ≡ replacement object.now object.now.body) }
{
    Ok(Plan {
        key: object.key.copy(alloc)?,
        expect: Expect::At(object.meta.stamp.version),
        guarded: false,
        change: Change::Put(object.copy(alloc)?),
    })
}

impl Due {
    /// The plan that it means.
    pub fn plan(&self, alloc: Global) -> Result<Plan<Object>, AllocError>
        ensures { IfOk result (λ plan. plan ≡ due_plan self.now) }
    {
        match self {
            Due::Removal(gone) => gone.plan(alloc),
            Due::Creation(made) => creation(alloc, made),
            Due::Replacement(object) => replacement(alloc, object),
            Due::Status(settling) => settling.plan(alloc),
        }
    }
}

/// The plan of what a look keeps.
pub fn plan_of(alloc: Global, view: &Option<Due>) -> Result<Option<Plan<Object>>, AllocError>
    ensures { IfOk result (λ plan. plan ≡ option_map due_plan view.now) }
{
    match view {
        Some(due) => Ok(Some(due.plan(alloc)?)),
        None => Ok(None),
    }
}
