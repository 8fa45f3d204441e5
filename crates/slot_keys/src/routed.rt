//! The names that the Route controller works on: those of Routes, of Tables and of pins, in order, each once.
ghost use Rattle.std.specs.Prelude.{◌≡◌, IfOk, OnOk};
ghost use Rattle.std.specs.List.{filter};
ghost use Rattle.resource_types.specs.Objects.{is_of};
ghost use Rattle.resource_types.specs.Lookups.{state};
ghost use Rattle.control_rules.specs.Slots.{names_of, holders, all_holders, names_for};
ghost use Rattle.slot_keys.specs.Routed.{put_name, put_names, names_in};

use json_tree::{Copied, Text};
use resource_types::{Controller, Kind, Name, Object};
use slot_table::{Keyed, SlotTable};
use std::alloc::{AllocError, Global};
use version_store::Store;

/// A row of such names.
#[derive(Drop)]
pub struct Routed {
    /// The name.
    pub name: Name,
}

impl Keyed for Routed {
    type Key = Name;

    ghost key = { λ routed. routed.name };

    fn key(&self) -> &Name {
        &self.name
    }
}

// Puts a name in, unless it is there.
fn put_name(
    alloc: Global,
    names: &mut SlotTable<Routed>,
    space: &Text,
    name: &Text,
) -> Result<(), AllocError>
    ensures { OnOk result (names_in names.new ≡ put_name (record { space = space.now; name = name.now }) (names_in names.old)) }
{
    let own_space = space.copy(alloc)?;
    let own_name = name.copy(alloc)?;
    names.hold(Routed {
        name: Name {
            space: own_space,
            name: own_name,
        },
    })?;
    Ok(())
}

// Puts the names of the objects of a kind in.
fn put_kind(
    alloc: Global,
    names: &mut SlotTable<Routed>,
    store: &Store<Object>,
    kind: Kind,
) -> Result<(), AllocError>
    ensures { OnOk result (names_in names.new ≡ put_names (names_of kind (state store.now.entries)) (names_in names.old)) }
{
    let objects = store.walk(kind);
    for place in 0..objects.len() {
        let object = objects.at(place);
        if object.is_of(kind) {
            put_name(alloc, names, &object.key.name.space, &object.key.name.name)?;
        }
    }
    Ok(())
}

// Puts the names of the Routes that hold the Revision in.
fn put_holders(
    alloc: Global,
    names: &mut SlotTable<Routed>,
    revision: &Object,
) -> Result<(), AllocError>
    ensures { OnOk result (names_in names.new ≡ put_names (holders revision.now) (names_in names.old)) }
{
    let pins = revision.body.pins();
    for place in 0..pins.len() {
        put_name(alloc, names, &revision.key.name.space, &pins[place])?;
    }
    Ok(())
}

// Puts the names of the Routes that hold a Revision in.
fn put_all_holders(
    alloc: Global,
    names: &mut SlotTable<Routed>,
    store: &Store<Object>,
) -> Result<(), AllocError>
    ensures { OnOk result (names_in names.new ≡ put_names (all_holders (filter (is_of Kind.Revision) (state store.now.entries))) (names_in names.old)) }
{
    let revisions = store.walk(Kind::Revision);
    for place in 0..revisions.len() {
        let revision = revisions.at(place);
        if revision.is_of(Kind::Revision) {
            put_holders(alloc, names, revision)?;
        }
    }
    Ok(())
}

/// The names that the Route controller works on.
///
/// Those of Routes come first: they stand in order, so each goes behind the ones that are in, and most Tables and pins have
/// the name of one of them.
pub fn routed_names(alloc: Global, store: &Store<Object>) -> Result<SlotTable<Routed>, AllocError>
    ensures { IfOk result (λ names. names_in names ≡ names_for Controller.Route (state store.now.entries)) }
{
    let mut names = SlotTable::new(alloc);
    put_kind(alloc, &mut names, store, Kind::Route)?;
    put_kind(alloc, &mut names, store, Kind::Table)?;
    put_all_holders(alloc, &mut names, store)?;
    Ok(names)
}
