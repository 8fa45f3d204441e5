//! The first of the names that come after the one that was stepped last. None of them is copied.
ghost use Rattle.std.specs.Prelude.{◌≡◌, option_map, slice_get, None};
ghost use Rattle.std.specs.List.{find, filter};
ghost use Rattle.resource_types.specs.Objects.{is_of};
ghost use Rattle.resource_types.specs.Lookups.{state};
ghost use Rattle.control_rules.specs.Slots.{names_of, holders, all_holders, names_for};
ghost use Rattle.slot_keys.specs.Routed.{after_each};
ghost use Rattle.slot_keys.specs.Nexts.{name_as, name_cmp, comes_after, lesser, with_name};

use json_tree::Text;
use resource_types::{Controller, Kind, Name, Object, SlotKey, walk_after};
use std::cmp::Ordering;
use version_store::{Store, Walk};

/// A name that is borrowed in its parts: of a pin, the namespace is the Revision's.
#[derive(Clone, Copy)]
pub struct NameParts<'a> {
    /// The namespace.
    pub space: &'a Text,
    /// The simple name.
    pub name: &'a Text,
}

// The name, borrowed.
fn parts_of(name: &Name) -> NameParts<'_>
    ensures { name_as result ≡ name.now }
{
    NameParts {
        space: &name.space,
        name: &name.name,
    }
}

// How two names are ordered.
fn compare(one: NameParts, other: NameParts) -> Ordering
    ensures { result ≡ name_cmp (name_as one.entry) (name_as other.entry) }
{
    match one.space.cmp(other.space) {
        Ordering::Equal => one.name.cmp(other.name),
        order => order,
    }
}

// Whether the controller's key of the name comes after the one that was stepped last.
fn comes_after(cursor: &Option<SlotKey>, controller: Controller, name: NameParts) -> bool
    ensures { result ≡ comes_after cursor.now controller (name_as name.entry) }
{
    match cursor {
        Some(last) => match last.controller.cmp(&controller) {
            Ordering::Less => true,
            Ordering::Equal => compare(parts_of(&last.name), name).is_lt(),
            Ordering::Greater => false,
        },
        None => true,
    }
}

// The first of the names of the objects that are of the kind.
fn first_of<'a>(objects: &Walk<'a, Object>, kind: Kind) -> Option<NameParts<'a>>
    ensures { option_map name_as result ≡ slice_get (names_of kind objects.now) 0 }
{
    for place in 0..objects.len() {
        let object = objects.at(place);
        if object.is_of(kind) {
            return Some(parts_of(&object.key.name));
        }
    }
    None
}

// The first name of a kind of which the controller's key comes after the one that was stepped last.
fn next_of_kind<'a>(
    store: &'a Store<Object>,
    cursor: &Option<SlotKey>,
    controller: Controller,
    kind: Kind,
) -> Option<NameParts<'a>>
    ensures { option_map name_as result ≡ find (comes_after cursor.now controller) (names_of kind (state store.now.entries)) }
{
    match cursor {
        Some(last) => match last.controller.cmp(&controller) {
            Ordering::Less => first_of(&store.walk(kind), kind),
            Ordering::Equal => {
                let (space, name) = (last.name.space.as_str(), last.name.name.as_str());
                first_of(&walk_after(store, kind, space, name), kind)
            }
            Ordering::Greater => None,
        },
        None => first_of(&store.walk(kind), kind),
    }
}

// The lesser of two names, or the one that there is.
fn lesser<'a>(one: Option<NameParts<'a>>, other: Option<NameParts<'a>>) -> Option<NameParts<'a>>
    ensures { option_map name_as result ≡ lesser (option_map name_as one.entry) (option_map name_as other.entry) }
{
    match (one, other) {
        (Some(name), Some(best)) => {
            if compare(name, best).is_lt() {
                one
            } else {
                other
            }
        }
        (None, _) => other,
        (_, None) => one,
    }
}

// The least name so far, or the pin where its key of the Route controller comes after the one that was stepped last, and
// it is less.
fn with_pin<'a>(
    cursor: &Option<SlotKey>,
    pin: NameParts<'a>,
    least: Option<NameParts<'a>>,
) -> Option<NameParts<'a>>
    ensures { option_map name_as result ≡ with_name (comes_after cursor.now Controller.Route) (name_as pin.entry) (option_map name_as least.entry) }
{
    if comes_after(cursor, Controller::Route, pin) {
        lesser(Some(pin), least)
    } else {
        least
    }
}

// The same with all pins of a Revision.
fn with_pins<'a>(
    cursor: &Option<SlotKey>,
    revision: &'a Object,
    least: Option<NameParts<'a>>,
) -> Option<NameParts<'a>>
    ensures { option_map name_as result ≡ after_each (with_name (comes_after cursor.now Controller.Route)) (holders revision.now) (option_map name_as least.entry) }
{
    let space = &revision.key.name.space;
    let pins = revision.body.pins();
    let mut best = least;
    for place in 0..pins.len() {
        let name = &pins[place];
        best = with_pin(cursor, NameParts { space, name }, best);
    }
    best
}

// The least pin of which the Route controller's key comes after the one that was stepped last.
fn next_pin<'a>(store: &'a Store<Object>, cursor: &Option<SlotKey>) -> Option<NameParts<'a>>
    ensures { option_map name_as result ≡ after_each (with_name (comes_after cursor.now Controller.Route)) (all_holders (filter (is_of Kind.Revision) (state store.now.entries))) None }
{
    let revisions = store.walk(Kind::Revision);
    let mut best = None;
    for place in 0..revisions.len() {
        let revision = revisions.at(place);
        if revision.is_of(Kind::Revision) {
            best = with_pins(cursor, revision, best);
        }
    }
    best
}

// The first name of which the Route controller's key comes after the one that was stepped last.
//
// The names of Routes and of Tables stand in order, so that the first of them that comes after is the least. Pins stand in
// no order.
fn next_of_routes<'a>(store: &'a Store<Object>, cursor: &Option<SlotKey>) -> Option<NameParts<'a>>
    ensures { option_map name_as result ≡ find (comes_after cursor.now Controller.Route) (names_for Controller.Route (state store.now.entries)) }
{
    let route = next_of_kind(store, cursor, Controller::Route, Kind::Route);
    let table = next_of_kind(store, cursor, Controller::Route, Kind::Table);
    let pin = next_pin(store, cursor);
    lesser(route, lesser(table, pin))
}

/// The first of the controller's names of which its key comes after the one that was stepped last.
#[tactic(auto, unfolding(control_rules::specs::Slots::names_for))]
pub fn next_name<'a>(
    store: &'a Store<Object>,
    cursor: &Option<SlotKey>,
    controller: Controller,
) -> Option<NameParts<'a>>
    ensures { option_map name_as result ≡ find (comes_after cursor.now controller) (names_for controller (state store.now.entries)) }
{
    match controller {
        Controller::Service => next_of_kind(store, cursor, controller, Kind::Service),
        Controller::Configuration => next_of_kind(store, cursor, controller, Kind::Configuration),
        Controller::Revision => next_of_kind(store, cursor, controller, Kind::Revision),
        Controller::Collector => next_of_kind(store, cursor, controller, Kind::Configuration),
        Controller::Route => next_of_routes(store, cursor),
    }
}
