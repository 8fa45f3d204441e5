//! The names that a controller works on.
ghost use Rattle.std.specs.Prelude.{◌≡◌, ◌||◌, bytes_eq};
ghost use Rattle.std.specs.List.{list_any};
ghost use Rattle.resource_types.specs.Lookups.{state, of_kind};
ghost use Rattle.control_rules.specs.Slots.{same_name, names_of, is_key};
ghost use Rattle.slot_keys.specs.Pins.{is_pinned_by};

use json_tree::Text;
use resource_types::{Controller, Kind, Name, Object, SlotKey, standing};
use version_store::Store;

// Whether an object of the kind stands under the name.
fn stands(store: &Store<Object>, kind: Kind, name: &Name) -> bool
    ensures { result ≡ list_any (same_name name.now) (names_of kind (state store.now.entries)) }
{
    match standing(store, kind, name.space.as_str(), name.name.as_str()) {
        Some(object) => object.is_of(kind),
        None => false,
    }
}

// Whether the text is among the texts.
fn is_among(text: &Text, texts: &[Text]) -> bool
    ensures { result ≡ list_any (bytes_eq text.now) texts.now }
{
    texts.iter().any(|other| *text == *other)
}

// Whether it is a Revision that the Route of the name holds.
fn is_pinned_by(name: &Name, object: &Object) -> bool
    ensures { result ≡ is_pinned_by name.now object.now }
{
    object.is_of(Kind::Revision)
        && name.space == object.key.name.space
        && is_among(&name.name, object.body.pins())
}

// Whether the Route of the name holds a Revision.
fn holds_pin(store: &Store<Object>, name: &Name) -> bool
    ensures { result ≡ list_any (is_pinned_by name.now) (of_kind Kind.Revision (state store.now.entries)) }
{
    let revisions = store.walk(Kind::Revision);
    for place in 0..revisions.len() {
        if is_pinned_by(name, revisions.at(place)) {
            return true;
        }
    }
    false
}

// Whether the Route controller works on the name. The pins are asked last, since that goes over all Revisions.
fn is_routed(store: &Store<Object>, name: &Name) -> bool
    ensures { result ≡ (list_any (same_name name.now) (names_of Kind.Route (state store.now.entries)) || (list_any (same_name name.now) (names_of Kind.Table (state store.now.entries)) || list_any (is_pinned_by name.now) (of_kind Kind.Revision (state store.now.entries)))) }
{
    stands(store, Kind::Route, name) || (stands(store, Kind::Table, name) || holds_pin(store, name))
}

/// Whether the controller of the slot works on its name.
pub fn is_key(store: &Store<Object>, key: &SlotKey) -> bool
    ensures { result ≡ is_key key.now (state store.now.entries) }
{
    match key.controller {
        Controller::Service => stands(store, Kind::Service, &key.name),
        Controller::Configuration => stands(store, Kind::Configuration, &key.name),
        Controller::Revision => stands(store, Kind::Revision, &key.name),
        Controller::Collector => stands(store, Kind::Configuration, &key.name),
        Controller::Route => is_routed(store, &key.name),
    }
}
