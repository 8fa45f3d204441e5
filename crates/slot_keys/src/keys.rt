//! The keys of a controller, in order.
ghost use Rattle.std.specs.Prelude.{◌≡◌, map, IfOk};
ghost use Rattle.resource_types.specs.Lookups.{state};
ghost use Rattle.control_rules.specs.Slots.{names_of, slot_key, keys_for};

use crate::routed::routed_names;
use json_tree::Copied;
use resource_types::{Controller, Kind, Object, SlotKey};
use std::alloc::{AllocError, Global};
use version_store::Store;

// The keys of a controller that works on the objects of a kind.
fn keys_of_kind(
    alloc: Global,
    store: &Store<Object>,
    controller: Controller,
    kind: Kind,
) -> Result<Vec<SlotKey>, AllocError>
    ensures { IfOk result (λ keys. keys.items ≡ map (slot_key controller) (names_of kind (state store.now.entries))) }
{
    let objects = store.walk(kind);
    let mut keys = Vec::new(alloc);
    for place in 0..objects.len() {
        let object = objects.at(place);
        if object.is_of(kind) {
            let name = object.key.name.copy(alloc)?;
            keys.push(SlotKey { controller, name })?;
        }
    }
    Ok(keys)
}

// The keys of the Route controller.
fn keys_of_routes(alloc: Global, store: &Store<Object>) -> Result<Vec<SlotKey>, AllocError>
    ensures { IfOk result (λ keys. keys.items ≡ keys_for Controller.Route (state store.now.entries)) }
{
    let names = routed_names(alloc, store)?;
    let rows = names.rows();
    let mut keys = Vec::new(alloc);
    for place in 0..rows.len() {
        let name = rows[place].name.copy(alloc)?;
        keys.push(SlotKey {
            controller: Controller::Route,
            name,
        })?;
    }
    Ok(keys)
}

/// The keys of a controller, in order.
#[tactic(auto, unfolding(control_rules::specs::Slots::names_for))]
pub fn keys_of(
    alloc: Global,
    store: &Store<Object>,
    controller: Controller,
) -> Result<Vec<SlotKey>, AllocError>
    ensures { IfOk result (λ keys. keys.items ≡ keys_for controller (state store.now.entries)) }
{
    match controller {
        Controller::Service => Ok(keys_of_kind(alloc, store, controller, Kind::Service)?),
        Controller::Configuration => {
            Ok(keys_of_kind(alloc, store, controller, Kind::Configuration)?)
        }
        Controller::Revision => Ok(keys_of_kind(alloc, store, controller, Kind::Revision)?),
        Controller::Collector => Ok(keys_of_kind(alloc, store, controller, Kind::Configuration)?),
        Controller::Route => Ok(keys_of_routes(alloc, store)?),
    }
}
