//! The set of touched keys.
ghost use Rattle.std.specs.Prelude.{◌≡◌, ◌≤◌, ◌<◌, [], true, false, length, OnOk, OnErr};
ghost use Rattle.version_store.specs.Index.{AreInOrder};
ghost use Rattle.resource_types.specs.contracts.names.SlotKeyOrd.TheImpl as slot_order;
ghost use Rattle.resource_types.specs.Lookups.{state};
ghost use Rattle.control_touches.specs.Touches.{is_touched_since};
ghost use Rattle.touched_keys.specs.Marks.{is_collector, is_marked, is_touched_in, unmarked, IsTakenIn, IsMarkedMore, TouchesSame};

use crate::intake::{mark_entries, mark_moved};
use crate::touches::touches;
use resource_types::{Controller, Object, SlotKey};
use slot_keys::is_key;
use slot_table::{Keyed, SlotTable};
use std::alloc::{AllocError, Global};
use std::marker::Model;
use version_store::Store;

/// A key that is marked.
#[derive(Drop)]
pub struct Mark {
    /// The key.
    pub key: SlotKey,
}

impl Keyed for Mark {
    type Key = SlotKey;

    ghost key = { λ mark. mark.key };

    fn key(&self) -> &SlotKey {
        &self.key
    }
}

/// The set of touched keys: those that are marked, up to which entry they are, and whether the moment moved since.
#[derive(Drop)]
pub struct Marks {
    keys: SlotTable<Mark>,
    // How many entries are taken in.
    upto: u64,
    // Whether the moment moved since, so that each Collector is touched.
    moved: bool,
}

impl Model for Marks {
    ghost use Rattle.touched_keys.specs.Marks.{MarksView};

    ghost Value = { MarksView };

    ghost view = { λ m. record { keys = m.keys; upto = m.upto; moved = m.moved } };
}

// Whether an entry that isn't taken in touches the key.
fn is_noted(store: &Store<Object>, upto: u64, key: &SlotKey) -> bool
    ensures { result ≡ is_touched_since store.now.entries upto key.now }
{
    for place in upto as usize..store.version() as usize {
        if touches(store, place, key.controller, &key.name) {
            return true;
        }
    }
    false
}

// Whether it is the Collector.
fn is_collector(controller: Controller) -> bool
    ensures { result ≡ is_collector controller }
{
    match controller {
        Controller::Collector => true,
        _ => false,
    }
}

impl Marks {
    /// A set without keys, at an empty journal.
    pub fn new(alloc: Global) -> Marks
        ensures keys { result.keys ≡ [] }
        ensures upto { result.upto ≡ 0 }
        ensures moved { result.moved ≡ false }
    {
        Marks {
            keys: SlotTable::new(alloc),
            upto: 0,
            moved: false,
        }
    }

    /// The keys that are marked, in order.
    pub fn rows(&self) -> &[Mark]
        ensures all { result.now ≡ self.now.keys }
        ensures ordered { AreInOrder (λ mark. mark.key) slot_order.ghosts.cmp self.now.keys }
    {
        self.keys.rows()
    }

    /// Whether the key is marked.
    pub fn is_marked(&self, key: &SlotKey) -> bool
        ensures { result ≡ is_marked key.now self.now.keys }
    {
        self.keys.find(key).is_some()
    }

    /// Whether the key is touched.
    pub fn is_touched(&self, store: &Store<Object>, key: &SlotKey) -> bool
        ensures { result ≡ is_touched_in store.now.entries self.now key.now }
    {
        is_key(store, key)
            && (self.is_marked(key)
                || (is_noted(store, self.upto, key)
                    || (self.moved && is_collector(key.controller))))
    }

    /// Notes that the moment moved.
    pub fn note_moment(&mut self)
        ensures keys { self.new.keys ≡ self.old.keys }
        ensures upto { self.new.upto ≡ self.old.upto }
        ensures moved { self.new.moved ≡ true }
    {
        self.moved = true;
    }

    /// Drops the mark of a key.
    pub fn unmark(&mut self, key: &SlotKey)
        ensures keys { self.new.keys ≡ unmarked key.now self.old.keys }
        ensures upto { self.new.upto ≡ self.old.upto }
        ensures moved { self.new.moved ≡ self.old.moved }
    {
        self.keys.idle(key);
    }

    /// Takes all entries in, and that the moment moved. The same keys are touched afterwards, and where memory runs out.
    pub fn take_in(&mut self, alloc: Global, store: &Store<Object>) -> Result<(), AllocError>
        ensures touched { TouchesSame store.now.entries self.old self.new }
        ensures ok { OnOk result (IsTakenIn (length store.now.entries) self.new) }
        ensures err { OnErr result (IsMarkedMore self.old self.new) }
    {
        mark_moved(alloc, &mut self.keys, store, self.moved)?;
        mark_entries(alloc, &mut self.keys, store, self.upto)?;
        self.upto = store.version();
        self.moved = false;
        Ok(())
    }

    /// A set without keys, where nothing is due in the present state.
    pub fn at_rest(alloc: Global, store: &Store<Object>) -> Marks
        ensures keys { result.keys ≡ [] }
        ensures taken { IsTakenIn (length store.now.entries) result }
    {
        Marks {
            keys: SlotTable::new(alloc),
            upto: store.version(),
            moved: false,
        }
    }
}
