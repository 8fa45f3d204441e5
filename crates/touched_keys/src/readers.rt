//! Marking the Routes that read what was changed.
//!
//! They are found on a walk over the Routes of a namespace. What is walked is the Route that stands under its name, so its
//! targets are read of it and not sought again.
ghost use Rattle.std.specs.Prelude.{◌≡◌, true, OnOk};
ghost use Rattle.control_rules.specs.Slots.{slot_key};
ghost use Rattle.touched_keys.specs.Marks.{is_marked, Adds};
ghost use Rattle.touched_keys.specs.Changes.{is_read_by_targets, is_reader, routes_beside, IsRouteBeside, IsTouched, MarksReaders};

use crate::marking::{Change, mark};
use crate::marks::Mark;
use crate::targets::{is_any_meaning, is_any_on, route_targets};
use resource_types::{Controller, Kind, Object, walk_space};
use slot_table::SlotTable;
use std::alloc::{AllocError, Global};

// Whether a target of the Route reads what was changed.
fn is_reader(change: &Change, route: &Object) -> bool
    ensures { result ≡ is_reader change.now route.now }
{
    let targets = route_targets(route);
    let name = &change.key.name.name;
    if change.key.kind == Kind::Configuration {
        is_any_on(targets, name)
    } else {
        is_any_meaning(change.store, &route.key.name, name, targets)
    }
}

// Marks the Route, where it reads what was changed.
fn mark_reader(
    alloc: Global,
    keys: &mut SlotTable<Mark>,
    change: &Change,
    route: &Object,
) -> Result<(), AllocError>
    requires read { is_read_by_targets change.now ≡ true }
    requires beside { IsRouteBeside change.now route.now }
    ensures adds { Adds (IsTouched change.now) keys.old keys.new }
    ensures all { OnOk result (is_reader change.now route.now ≡ true → is_marked (slot_key Controller.Route route.now.key.name) keys.new ≡ true) }
{
    if is_reader(change, route) {
        mark(alloc, keys, Controller::Route, &route.key.name)?;
    }
    Ok(())
}

/// Marks the Routes of the change's namespace that read what was changed.
pub fn mark_readers(
    alloc: Global,
    keys: &mut SlotTable<Mark>,
    change: &Change,
) -> Result<(), AllocError>
    requires read { is_read_by_targets change.now ≡ true }
    ensures adds { Adds (IsTouched change.now) keys.old keys.new }
    ensures all { OnOk result (MarksReaders change.now (routes_beside change.now) keys.new) }
{
    let space = change.key.name.space.as_str();
    let routes = walk_space(change.store, Kind::Route, space);
    for place in 0..routes.len() {
        mark_reader(alloc, keys, change, routes.at(place))?;
    }
    Ok(())
}
