//! What turns and the cursor ask of a plane, and do to its slots.
ghost use Rattle.std.specs.Prelude.{◌≡◌, length, is_some, Some, IfOk};
ghost use Rattle.manifest_intake.specs.Good.{is_good};
ghost use Rattle.control_rules.specs.Slots.{is_key, look_of, idle_at, present};
ghost use Rattle.control_rules.specs.Steps.{stays, picked};
ghost use Rattle.control_rules.specs.Facts.{IsKept};
ghost use Rattle.step_scheduler.specs.Counts.{one_more};

use super::Plane;
use crate::counts::one_more;
use json_tree::Copied;
use resource_types::SlotKey;
use slot_keys::{is_key, next_key};
use std::alloc::AllocError;

impl Plane {
    // The number of entries.
    pub(crate) fn version(&self) -> u64
        ensures count { result ≡ length self.now.plane.journal }
        ensures kept { IsKept is_good self.now.plane }
    {
        self.store.version()
    }

    // Whether the controller of the slot works on its name.
    pub(crate) fn is_key(&self, key: &SlotKey) -> bool
        ensures { result ≡ is_key key.now (present self.now.plane) }
    {
        is_key(&self.store, key)
    }

    // Whether the slot of the key holds something.
    pub(crate) fn is_held(&self, key: &SlotKey) -> bool
        ensures { result ≡ is_some (look_of key.now self.now.plane.slots) }
    {
        self.slots.find(key).is_some()
    }

    // Idles the slot of the key.
    pub(crate) fn idle(&mut self, key: &SlotKey)
        ensures plane { self.new.plane ≡ record self.old.plane { slots = idle_at key.now self.old.plane.slots } }
        ensures looks { self.new.looks ≡ self.old.looks }
        ensures turns { self.new.turns ≡ self.old.turns }
        ensures marks { self.new.marks ≡ self.old.marks }
    {
        self.slots.idle(key);
    }

    // Counts a turn.
    pub(crate) fn count_turn(&mut self)
        ensures plane { self.new.plane ≡ self.old.plane }
        ensures looks { self.new.looks ≡ self.old.looks }
        ensures turns { self.new.turns ≡ one_more self.old.turns }
        ensures marks { self.new.marks ≡ self.old.marks }
    {
        self.turn_count = one_more(self.turn_count);
    }

    // Whether the cursor stays at the key: it is one, and its slot holds something.
    fn is_staying(&self, last: &SlotKey) -> bool
        ensures { result ≡ stays self.now.plane last.now }
    {
        self.is_key(last) && self.is_held(last)
    }

    // The key that the cursor steps: its own where it stays, and else the next one.
    pub(crate) fn picked(&self) -> Result<Option<SlotKey>, AllocError>
        ensures ok { IfOk result (λ key. key ≡ picked self.now.plane self.now.plane.cursor) }
        ensures kept { IsKept is_good self.now.plane }
    {
        match &self.cursor {
            Some(last) => {
                if self.is_staying(last) {
                    return Ok(Some(last.copy(self.alloc)?));
                }
                Ok(next_key(self.alloc, &self.store, &self.cursor)?)
            }
            None => Ok(next_key(self.alloc, &self.store, &self.cursor)?),
        }
    }

    // Moves the cursor to the key.
    pub(crate) fn point(&mut self, key: SlotKey)
        ensures plane { self.new.plane ≡ record self.old.plane { cursor = Some key } }
        ensures looks { self.new.looks ≡ self.old.looks }
        ensures turns { self.new.turns ≡ self.old.turns }
        ensures marks { self.new.marks ≡ self.old.marks }
    {
        self.cursor = Some(key);
    }
}
