//! Plans.
ghost use Rattle.std.specs.Prelude.{◌≡◌, IfOk};
ghost use Rattle.controller_parts.specs.Plans.{IsFrameOf, removed_of, removed_plan, replacement_in};

use json_tree::Copied;
use resource_types::{Body, Key, Meta, Object};
use std::alloc::{AllocError, Global};
use version_store::{Change, Expect, Plan};

/// All that a put of an object that stands keeps of it: made first, so that the body is the last to be made.
#[derive(Drop)]
pub struct Frame {
    /// The key of the plan.
    pub of_plan: Key,
    /// The key of the object.
    pub key: Key,
    /// What the object has beside its key and its body.
    pub meta: Meta,
}

/// The frame of an object that stands.
pub fn frame_of(alloc: Global, object: &Object) -> Result<Frame, AllocError>
    ensures { IfOk result (λ frame. IsFrameOf object.now frame) }
{
    Ok(Frame {
        of_plan: object.key.copy(alloc)?,
        key: object.key.copy(alloc)?,
        meta: object.meta.copy(alloc)?,
    })
}

impl Frame {
    /// The object gets the body, and keeps all else.
    pub fn with(self, body: Body) -> Plan<Object>
        ensures { result ≡ replacement_in self body }
    {
        let version = self.meta.stamp.version;
        Plan {
            key: self.of_plan,
            expect: Expect::At(version),
            guarded: false,
            change: Change::Put(Object {
                key: self.key,
                meta: self.meta,
                body,
            }),
        }
    }
}

/// What the removal of an object that stands says of it.
#[derive(Drop)]
pub struct Removed {
    /// The key.
    pub key: Key,
    /// The version that must stand.
    pub version: u64,
    /// Whether a guard hinders it.
    pub guarded: bool,
}

/// The removal of an object that stands.
pub fn removal_of(alloc: Global, object: &Object, guarded: bool) -> Result<Removed, AllocError>
    ensures { IfOk result (λ r. r ≡ removed_of guarded object.now) }
{
    Ok(Removed {
        key: object.key.copy(alloc)?,
        version: object.meta.stamp.version,
        guarded,
    })
}

impl Removed {
    /// The plan of it.
    pub fn plan(&self, alloc: Global) -> Result<Plan<Object>, AllocError>
        ensures { IfOk result (λ plan. plan ≡ removed_plan self.now) }
    {
        Ok(Plan {
            key: self.key.copy(alloc)?,
            expect: Expect::At(self.version),
            guarded: self.guarded,
            change: Change::Remove,
        })
    }
}
