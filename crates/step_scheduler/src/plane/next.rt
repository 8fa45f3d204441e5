//! The keys that a pass visits: those that are touched, and those whose slots hold something.
ghost use Rattle.std.specs.Prelude.{◌≡◌, IfOk, OnOk};
ghost use Rattle.manifest_intake.specs.Good.{is_good};
ghost use Rattle.control_rules.specs.Facts.{IsKept};
ghost use Rattle.step_scheduler.specs.Passes.{IsVisit};
ghost use Rattle.step_scheduler.specs.Touched.{TookIn, TouchesSame};

use super::Plane;
use crate::passes::{first_next, lesser};
use json_tree::Copied;
use resource_types::{Controller, SlotKey};
use std::alloc::AllocError;

impl Plane {
    // The first key of the controller behind the last one that is marked or whose slot holds something.
    fn first_busy(
        &self,
        controller: Controller,
        last: &Option<SlotKey>,
    ) -> Result<Option<SlotKey>, AllocError>
        requires { TookIn self.now }
        ensures visit { IfOk result (IsVisit self.now.plane controller last.now) }
        ensures kept { IsKept is_good self.now.plane }
    {
        let marked = first_next(&self.store, self.marks.rows(), controller, last);
        let held = first_next(&self.store, self.slots.rows(), controller, last);
        match lesser(marked, held) {
            Some(key) => Ok(Some(key.copy(self.alloc)?)),
            None => Ok(None),
        }
    }

    // The key that a pass visits after the last one. Rounds of the keys between would change nothing.
    pub(crate) fn next_visit(
        &mut self,
        controller: Controller,
        last: &Option<SlotKey>,
    ) -> Result<Option<SlotKey>, AllocError>
        ensures visit { IfOk result (IsVisit self.new.plane controller last.now) }
        ensures kept { OnOk result (IsKept is_good self.new.plane) }
        ensures plane { self.new.plane ≡ self.old.plane }
        ensures touched { TouchesSame self.old self.new }
        ensures looks { self.new.looks ≡ self.old.looks }
        ensures turns { self.new.turns ≡ self.old.turns }
    {
        self.take_in()?;
        let key = self.first_busy(controller, last)?;
        Ok(key)
    }
}
