//! Whether an entry touches a key.
ghost use Rattle.std.specs.Prelude.{◌≡◌, ◌&&◌, ◌||◌, ◌<◌, bytes_eq, length, not, Some};
ghost use Rattle.std.specs.List.{list_any};
ghost use Rattle.std.specs.Option.{option_copied};
ghost use Rattle.resource_types.specs.Lookups.{state, is_given};
ghost use Rattle.control_rules.specs.Standing.{listed, of_its_kind, read};
ghost use Rattle.control_rules.specs.Slots.{slot_key};
ghost use Rattle.control_touches.specs.Touches.{is_lost, is_configuration, is_changed, is_on, is_meaning, is_one_of, is_under, targets_at, is_pinned, is_alike, sight_of, is_same_sight, touches_service, touches_configuration, touches_revision, touches_collector, touches_route, touches_of};
ghost use Rattle.touched_keys.specs.Places.{touches_at};

use crate::changes::{entry_at, object_before};
use crate::names::{is_in, is_one, is_under};
use crate::targets::{
    is_any_meaning, is_any_on, is_changed, is_retargeted, is_retargeted_under, targets_at,
};
use json_tree::Text;
use resource_types::{CondName, Controller, Key, Kind, Name, Object, Truth};
use version_store::Store;

// Whether what is there is the Configuration of the uid.
#[tactic(auto, unfolding(control_touches::specs::Touches::is_configuration))]
fn is_configuration(uid: u64, object: Option<&Object>) -> bool
    ensures { result ≡ is_given (is_configuration uid) (option_copied object.entry) }
{
    match object {
        Some(object) => object.is_of(Kind::Configuration) && object.meta.stamp.uid == uid,
        None => false,
    }
}

/// Whether a Configuration went, or gave way to another.
#[tactic(auto, unfolding(control_touches::specs::Touches::is_lost))]
pub fn is_lost(old: Option<&Object>, new: Option<&Object>) -> bool
    ensures { result ≡ is_lost (option_copied old.entry) (option_copied new.entry) }
{
    match old {
        Some(object) => !is_configuration(object.meta.stamp.uid, new),
        None => false,
    }
}

// Whether one of the texts is this one.
fn has_text(texts: &[Text], text: &Text) -> bool
    ensures { result ≡ list_any (λ other. bytes_eq text.now other) texts.now }
{
    texts.iter().any(|other| *text == *other)
}

// Whether the text is among the texts.
fn is_listed(text: &Text, texts: &[Text]) -> bool
    ensures { result ≡ listed text.now texts.now }
{
    has_text(texts, text)
}

// Whether the Route has a pin at what is there.
#[tactic(auto, unfolding(control_touches::specs::Touches::is_pinned, control_rules::specs::Standing::listed))]
fn is_pinned(route: &Name, object: Option<&Object>) -> bool
    ensures { result ≡ is_pinned route.now (option_copied object.entry) }
{
    match object {
        Some(object) => {
            object.is_of(Kind::Revision) && is_listed(&route.name, object.body.pins())
        }
        None => false,
    }
}

// What is there, where it is a Revision.
fn as_revision<'a>(object: Option<&'a Object>) -> Option<&'a Object>
    ensures { option_copied result ≡ of_its_kind Kind.Revision (option_copied object.entry) }
{
    match object {
        Some(object) => {
            if object.is_of(Kind::Revision) {
                Some(object)
            } else {
                None
            }
        }
        None => None,
    }
}

// Whether Routes read two Revisions alike, but for pins.
#[tactic(auto, unfolding(control_touches::specs::Touches::is_changed))]
fn has_same_sight(old: &Object, new: &Object) -> bool
    ensures { result ≡ is_same_sight (sight_of (Some old.now)) (sight_of (Some new.now)) }
{
    old.meta.stamp.uid == new.meta.stamp.uid
        && !(is_changed(old.has_been_ready(), new.has_been_ready())
            || is_changed(
                old.has_condition(CondName::Ready, Truth::True),
                new.has_condition(CondName::Ready, Truth::True),
            ))
}

/// Whether what was there is read by Routes as what is there, but for pins.
#[tactic(auto, unfolding(control_touches::specs::Touches::is_alike))]
pub fn is_alike(old: Option<&Object>, new: Option<&Object>) -> bool
    ensures { result ≡ is_alike (option_copied old.entry) (option_copied new.entry) }
{
    match as_revision(old) {
        Some(old) => match as_revision(new) {
            Some(new) => has_same_sight(old, new),
            None => false,
        },
        None => as_revision(new).is_none(),
    }
}

// Whether the key is of a Revision under the name.
#[tactic(auto, unfolding(control_touches::specs::Touches::is_one_of))]
fn is_revision_under(name: &Name, key: &Key) -> bool
    ensures { result ≡ is_one_of Kind.Revision name.now.space (is_under name.now.name) key.now }
{
    is_in(Kind::Revision, &name.space, key) && is_under(&name.name, &key.name.name)
}

// Whether the key is of a Configuration that the name is under.
#[tactic(auto, unfolding(control_touches::specs::Touches::is_one_of))]
fn is_configuration_over(name: &Name, key: &Key) -> bool
    ensures { result ≡ is_one_of Kind.Configuration name.now.space (λ owner. is_under owner name.now.name) key.now }
{
    is_in(Kind::Configuration, &name.space, key) && is_under(&key.name.name, &name.name)
}

// Whether a target of the Route is on the Configuration of the key.
#[tactic(auto, unfolding(control_touches::specs::Touches::is_one_of))]
fn is_configuration_of(store: &Store<Object>, route: &Name, key: &Key) -> bool
    ensures { result ≡ is_one_of Kind.Configuration route.now.space (λ name. list_any (is_on name) (targets_at (state store.now.entries) route.now)) key.now }
{
    is_in(Kind::Configuration, &route.space, key)
        && is_any_on(targets_at(store, route), &key.name.name)
}

// Whether the Route reads the Revision of the key otherwise than before.
#[tactic(auto, unfolding(control_touches::specs::Touches::is_one_of))]
fn is_revision_of(
    store: &Store<Object>,
    route: &Name,
    key: &Key,
    old: Option<&Object>,
    new: Option<&Object>,
) -> bool
    ensures { result ≡ is_one_of Kind.Revision route.now.space (λ name. is_changed (is_pinned route.now (option_copied old.entry)) (is_pinned route.now (option_copied new.entry)) || (not (is_alike (option_copied old.entry) (option_copied new.entry)) && list_any (is_meaning (state store.now.entries) route.now name) (targets_at (state store.now.entries) route.now))) key.now }
{
    is_in(Kind::Revision, &route.space, key)
        && (is_changed(is_pinned(route, old), is_pinned(route, new))
            || (!is_alike(old, new)
                && is_any_meaning(store, route, &key.name.name, targets_at(store, route))))
}

// Whether a change at the key touches the Service.
#[tactic(auto, unfolding(control_touches::specs::Touches::touches_service))]
fn touches_service(key: &Key, name: &Name) -> bool
    ensures { result ≡ touches_service key.now name.now }
{
    is_one(
        &[Kind::Service, Kind::Configuration, Kind::Route],
        name,
        key,
    )
}

// Whether it touches the Configuration.
#[tactic(auto, unfolding(control_touches::specs::Touches::touches_configuration))]
fn touches_configuration(key: &Key, name: &Name) -> bool
    ensures { result ≡ touches_configuration key.now name.now }
{
    is_one(&[Kind::Service, Kind::Configuration], name, key) || is_revision_under(name, key)
}

// Whether it touches the Revision.
#[tactic(auto, unfolding(control_touches::specs::Touches::touches_revision))]
fn touches_revision(key: &Key, old: Option<&Object>, new: Option<&Object>, name: &Name) -> bool
    ensures { result ≡ touches_revision key.now (option_copied old.entry) (option_copied new.entry) name.now }
{
    is_one(&[Kind::Revision, Kind::Health], name, key)
        || ((is_configuration_over(name, key) && is_lost(old, new))
            || is_retargeted(&name.space, &name.name, old, new))
}

// Whether it touches the Collector of the Configuration.
#[tactic(auto, unfolding(control_touches::specs::Touches::touches_collector))]
fn touches_collector(key: &Key, old: Option<&Object>, new: Option<&Object>, name: &Name) -> bool
    ensures { result ≡ touches_collector key.now (option_copied old.entry) (option_copied new.entry) name.now }
{
    is_one(&[Kind::Configuration], name, key)
        || (is_revision_under(name, key) || is_retargeted_under(name, old, new))
}

// Whether it touches the Route.
#[tactic(auto, unfolding(control_touches::specs::Touches::touches_route))]
fn touches_route(
    store: &Store<Object>,
    key: &Key,
    old: Option<&Object>,
    new: Option<&Object>,
    name: &Name,
) -> bool
    ensures { result ≡ touches_route (state store.now.entries) key.now (option_copied old.entry) (option_copied new.entry) name.now }
{
    is_one(&[Kind::Route, Kind::Table, Kind::Service], name, key)
        || (is_configuration_of(store, name, key) || is_revision_of(store, name, key, old, new))
}

/// Whether a change at the key touches the controller's key of the name.
pub fn touches_of(
    store: &Store<Object>,
    key: &Key,
    old: Option<&Object>,
    new: Option<&Object>,
    controller: Controller,
    name: &Name,
) -> bool
    ensures { result ≡ touches_of (state store.now.entries) key.now (option_copied old.entry) (option_copied new.entry) controller name.now }
{
    match controller {
        Controller::Service => touches_service(key, name),
        Controller::Configuration => touches_configuration(key, name),
        Controller::Revision => touches_revision(key, old, new, name),
        Controller::Collector => touches_collector(key, old, new, name),
        Controller::Route => touches_route(store, key, old, new, name),
    }
}

/// Whether the entry at a place, counted from 0, touches the controller's key of the name.
pub fn touches(store: &Store<Object>, place: usize, controller: Controller, name: &Name) -> bool
    requires { place < length store.now.entries }
    ensures { result ≡ touches_at store.now.entries place (slot_key controller name.now) }
{
    let entry = entry_at(store, place);
    let old = object_before(store, place);
    let new = entry.object.as_ref();
    touches_of(store, &entry.key, old, new, controller, name)
}
