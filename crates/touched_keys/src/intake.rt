//! Taking entries into the set.
ghost use Rattle.std.specs.Prelude.{◌≡◌, ◌&&◌, ◌<◌, true, length, OnOk};
ghost use Rattle.resource_types.specs.Lookups.{state};
ghost use Rattle.control_rules.specs.Slots.{slot_key, is_key};
ghost use Rattle.control_touches.specs.Touches.{is_touched_since};
ghost use Rattle.touched_keys.specs.Places.{touches_at};
ghost use Rattle.touched_keys.specs.Marks.{is_collector, is_marked, Adds, MarksKeys};

use crate::changes::{entry_at, object_before};
use crate::marking::{Change, mark, mark_all};
use crate::marks::Mark;
use resource_types::{Controller, Kind, Object};
use slot_table::SlotTable;
use std::alloc::{AllocError, Global};
use version_store::Store;

// Marks the keys that the entry at a place touches.
fn mark_entry(
    alloc: Global,
    keys: &mut SlotTable<Mark>,
    store: &Store<Object>,
    place: usize,
) -> Result<(), AllocError>
    requires { place < length store.now.entries }
    ensures adds { Adds (λ pick. touches_at store.now.entries place pick ≡ true) keys.old keys.new }
    ensures all { OnOk result (MarksKeys (state store.now.entries) (λ pick. touches_at store.now.entries place pick ≡ true) keys.new) }
{
    let entry = entry_at(store, place);
    let change = Change {
        store,
        key: &entry.key,
        old: object_before(store, place),
        new: entry.object.as_ref(),
    };
    mark_all(alloc, keys, &change)?;
    Ok(())
}

/// Marks the keys that the entries behind the first `upto` touch.
pub fn mark_entries(
    alloc: Global,
    keys: &mut SlotTable<Mark>,
    store: &Store<Object>,
    upto: u64,
) -> Result<(), AllocError>
    ensures adds { Adds (λ pick. is_touched_since store.now.entries upto pick ≡ true) keys.old keys.new }
    ensures all { OnOk result (MarksKeys (state store.now.entries) (λ pick. is_touched_since store.now.entries upto pick ≡ true) keys.new) }
{
    for place in upto as usize..store.version() as usize {
        mark_entry(alloc, keys, store, place)?;
    }
    Ok(())
}

// Marks all Collectors.
fn mark_every_collector(
    alloc: Global,
    keys: &mut SlotTable<Mark>,
    store: &Store<Object>,
) -> Result<(), AllocError>
    ensures adds { Adds (λ pick. is_collector pick.controller ≡ true) keys.old keys.new }
    ensures all { OnOk result (MarksKeys (state store.now.entries) (λ pick. is_collector pick.controller ≡ true) keys.new) }
{
    let configurations = store.walk(Kind::Configuration);
    for place in 0..configurations.len() {
        mark(
            alloc,
            keys,
            Controller::Collector,
            &configurations.at(place).key.name,
        )?;
    }
    Ok(())
}

/// Marks all Collectors, where the moment moved.
pub fn mark_moved(
    alloc: Global,
    keys: &mut SlotTable<Mark>,
    store: &Store<Object>,
    moved: bool,
) -> Result<(), AllocError>
    ensures adds { Adds (λ pick. (moved && is_collector pick.controller) ≡ true) keys.old keys.new }
    ensures all { OnOk result (MarksKeys (state store.now.entries) (λ pick. (moved && is_collector pick.controller) ≡ true) keys.new) }
{
    if moved {
        mark_every_collector(alloc, keys, store)?;
    }
    Ok(())
}
