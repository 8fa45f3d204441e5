//! The key that the cursor goes to.
ghost use Rattle.std.specs.Prelude.{◌≡◌, IfOk};
ghost use Rattle.std.specs.List.{find};
ghost use Rattle.resource_types.specs.Lookups.{state};
ghost use Rattle.control_rules.specs.Slots.{slot_key, keys_for, all_keys};
ghost use Rattle.control_rules.specs.Steps.{is_after, next_key};
ghost use Rattle.slot_keys.specs.Nexts.{name_as};

use crate::nearest::{NameParts, next_name};
use json_tree::Copied;
use resource_types::{Controller, Name, Object, SlotKey};
use std::alloc::{AllocError, Global};
use version_store::Store;

// The controller's key of a name.
fn key_of(alloc: Global, controller: Controller, name: NameParts) -> Result<SlotKey, AllocError>
    ensures { IfOk result (λ key. key ≡ slot_key controller (name_as name.entry)) }
{
    let space = name.space.copy(alloc)?;
    let name = name.name.copy(alloc)?;
    Ok(SlotKey {
        controller,
        name: Name { space, name },
    })
}

// The first key of the controller that comes after the one that was stepped last. The name is copied here, and no other.
fn next_of(
    alloc: Global,
    store: &Store<Object>,
    cursor: &Option<SlotKey>,
    controller: Controller,
) -> Result<Option<SlotKey>, AllocError>
    ensures { IfOk result (λ key. key ≡ find (is_after cursor.now) (keys_for controller (state store.now.entries))) }
{
    match next_name(store, cursor, controller) {
        Some(name) => Ok(Some(key_of(alloc, controller, name)?)),
        None => Ok(None),
    }
}

// The first key of all controllers that comes after the one that was stepped last.
fn next_after(
    alloc: Global,
    store: &Store<Object>,
    cursor: &Option<SlotKey>,
) -> Result<Option<SlotKey>, AllocError>
    ensures { IfOk result (λ key. key ≡ find (is_after cursor.now) (all_keys (state store.now.entries))) }
{
    if let Some(key) = next_of(alloc, store, cursor, Controller::Service)? {
        return Ok(Some(key));
    }
    if let Some(key) = next_of(alloc, store, cursor, Controller::Configuration)? {
        return Ok(Some(key));
    }
    if let Some(key) = next_of(alloc, store, cursor, Controller::Revision)? {
        return Ok(Some(key));
    }
    if let Some(key) = next_of(alloc, store, cursor, Controller::Collector)? {
        return Ok(Some(key));
    }
    let key = next_of(alloc, store, cursor, Controller::Route)?;
    Ok(key)
}

/// The key after the one that was stepped last, among those of all controllers; the first follows the last.
pub fn next_key(
    alloc: Global,
    store: &Store<Object>,
    cursor: &Option<SlotKey>,
) -> Result<Option<SlotKey>, AllocError>
    ensures { IfOk result (λ key. key ≡ next_key cursor.now (all_keys (state store.now.entries))) }
{
    match next_after(alloc, store, cursor)? {
        Some(key) => Ok(Some(key)),
        None => {
            let first = next_after(alloc, store, &None)?;
            Ok(first)
        }
    }
}
