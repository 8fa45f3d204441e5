//! The touched keys of a plane.
ghost use Rattle.std.specs.Prelude.{◌≡◌, ◌++◌, false, length, IfOk, OnOk};
ghost use Rattle.std.specs.List.{filter};
ghost use Rattle.control_rules.specs.Quiet.{IsQuiet};
ghost use Rattle.control_rules.specs.Slots.{keys_for, present};
ghost use Rattle.step_scheduler.specs.Touched.{is_touched, touched_keys, DropsMark, HasNothing, IsUntouched, TookIn, TouchesSame};

use super::Plane;
use resource_types::{Controller, SlotKey};
use slot_keys::keys_of;
use std::alloc::AllocError;
use touched_keys::Marks;

impl Plane {
    /// Whether the key is touched. To a key that isn't nothing is due, in the present state and at the present moment.
    pub fn touched(&self, key: &SlotKey) -> bool
        ensures touched { result ≡ is_touched self.now key.now }
        ensures rest { result ≡ false → HasNothing self.now.plane key.now }
    {
        self.marks.is_touched(&self.store, key)
    }

    // Adds the touched keys of a controller.
    fn add_touched(
        &self,
        controller: Controller,
        found: &mut Vec<SlotKey>,
    ) -> Result<(), AllocError>
        ensures { OnOk result (found.new.items
            ≡ found.old.items
            ++ filter (is_touched self.now) (keys_for controller (present self.now.plane))) }
    {
        for key in keys_of(self.alloc, &self.store, controller)? {
            if self.touched(&key) {
                found.push(key)?;
            }
        }
        Ok(())
    }

    /// The touched keys, in order. All keys are asked.
    pub fn touched_keys(&self) -> Result<Vec<SlotKey>, AllocError>
        ensures { IfOk result (λ keys. keys.items ≡ touched_keys self.now) }
    {
        let mut found = Vec::new(self.alloc);
        self.add_touched(Controller::Service, &mut found)?;
        self.add_touched(Controller::Configuration, &mut found)?;
        self.add_touched(Controller::Revision, &mut found)?;
        self.add_touched(Controller::Collector, &mut found)?;
        self.add_touched(Controller::Route, &mut found)?;
        Ok(found)
    }

    /// How many keys are touched. All keys are asked.
    pub fn touched_count(&self) -> Result<u64, AllocError>
        ensures { IfOk result (λ count. count ≡ length (touched_keys self.now)) }
    {
        let keys = self.touched_keys()?;
        Ok(keys.len() as u64)
    }

    // Takes the entries that were made into the set of touched keys, and that the moment moved.
    pub(crate) fn take_in(&mut self) -> Result<(), AllocError>
        ensures plane { self.new.plane ≡ self.old.plane }
        ensures taken { OnOk result (TookIn self.new) }
        ensures touched { TouchesSame self.old self.new }
        ensures spare { self.new.spare ≡ self.old.spare }
        ensures looks { self.new.looks ≡ self.old.looks }
        ensures turns { self.new.turns ≡ self.old.turns }
    {
        self.marks.take_in(self.alloc, &self.store)
    }

    // Drops the mark of a key to which nothing is due.
    pub(crate) fn unmark(&mut self, key: &SlotKey)
        requires taken { TookIn self.old }
        requires nothing { HasNothing self.old.plane key.now }
        ensures plane { self.new.plane ≡ self.old.plane }
        ensures taken { TookIn self.new }
        ensures touched { DropsMark key.now self.old self.new }
        ensures spare { self.new.spare ≡ self.old.spare }
        ensures looks { self.new.looks ≡ self.old.looks }
        ensures turns { self.new.turns ≡ self.old.turns }
    {
        self.marks.unmark(key);
    }

    // Drops all marks, where nothing is due to any key.
    pub(crate) fn rest(&mut self)
        requires quiet { IsQuiet self.old.plane.settings (present self.old.plane) self.old.plane.now }
        ensures plane { self.new.plane ≡ self.old.plane }
        ensures untouched { IsUntouched self.new }
        ensures spare { self.new.spare ≡ self.old.spare }
        ensures looks { self.new.looks ≡ self.old.looks }
        ensures turns { self.new.turns ≡ self.old.turns }
    {
        self.marks = Marks::at_rest(self.alloc, &self.store);
    }
}
