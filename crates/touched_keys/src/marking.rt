//! Marking the keys that a change touches.
ghost use Rattle.std.specs.Prelude.{◌≡◌, true, OnOk, OnErr};
ghost use Rattle.std.specs.Option.{option_copied};
ghost use Rattle.resource_types.specs.Lookups.{state, of_kind};
ghost use Rattle.control_rules.specs.Slots.{slot_key};
ghost use Rattle.control_touches.specs.Touches.{touches};
ghost use Rattle.touched_keys.specs.Marks.{is_marked, marked, Adds};
ghost use Rattle.control_rules.specs.Standing.{beside};
ghost use Rattle.touched_keys.specs.Changes.{has_names, names_revisions, walks_revisions, is_read_by_targets, pins_in, IsTouched, MarksEach, MarksAll, MarksOver, MarksPins};

use crate::marks::Mark;
use crate::readers::mark_readers;
use crate::targets::targets_in;
use crate::touches::{is_alike, is_lost, touches_of};
use json_tree::{Copied, Text};
use resource_types::{Controller, Key, Kind, Name, Object, SlotKey, Target};
use slot_table::SlotTable;
use std::alloc::{AllocError, Global};
use std::marker::Model;
use version_store::{Store, Walk};

/// A change at a key.
#[derive(Drop)]
pub struct Change<'a> {
    /// What stands now.
    pub store: &'a Store<Object>,
    /// The key.
    pub key: &'a Key,
    /// What stood there before.
    pub old: Option<&'a Object>,
    /// What stood there after it.
    pub new: Option<&'a Object>,
}

impl<'a> Model for Change<'a> {
    ghost use Rattle.json_tree.specs.contracts.value.Json as json;
    ghost use Rattle.std.specs.Coded.{codes};
    ghost use Rattle.std.specs.Option.{option_copied};
    ghost use Rattle.resource_types.specs.Lookups.{state, of_kind};
    ghost use Rattle.touched_keys.specs.Changes.{ChangeView};

    ghost Value = { ChangeView };

    ghost coded = { Prim.hlevel (codes, json.the_row.coded) };

    ghost view = { λ c. record { state = state c.store.now.entries; key = c.key.now; old = option_copied c.old; new = option_copied c.new } };
}

impl<'a> Change<'a> {
    /// Whether it touches the controller's key of the name.
    #[tactic(auto, unfolding(control_touches::specs::Touches::touches))]
    fn touches(&self, controller: Controller, name: &Name) -> bool
        ensures { result ≡ touches self.now.state self.now.key self.now.old self.now.new (slot_key controller name.now) }
    {
        touches_of(self.store, self.key, self.old, self.new, controller, name)
    }

    // Whether a target of what was or is there names a Revision.
    fn names_revisions(&self) -> bool
        ensures { result ≡ names_revisions self.now }
    {
        has_names(targets_in(self.old)) || has_names(targets_in(self.new))
    }

    // Whether Revisions of other names may be touched.
    fn walks_revisions(&self) -> bool
        ensures { result ≡ walks_revisions self.now }
    {
        (self.key.kind == Kind::Configuration && is_lost(self.old, self.new))
            || self.names_revisions()
    }

    // Whether targets of Routes may read otherwise what was changed.
    fn is_read_by_targets(&self) -> bool
        ensures { result ≡ is_read_by_targets self.now }
    {
        self.key.kind == Kind::Configuration
            || (self.key.kind == Kind::Revision && !is_alike(self.old, self.new))
    }
}

// Whether one of the targets names a Revision.
fn has_names(targets: &[Target]) -> bool
    ensures { result ≡ has_names targets.now }
{
    targets.iter().any(|target| !target.revision.is_empty())
}

// The pins of what is there; none where it isn't a Revision.
#[tactic(auto, unfolding(control_rules::specs::Standing::of_its_kind))]
fn pins_in<'a>(object: Option<&'a Object>) -> &'a [Text]
    ensures { result.now ≡ pins_in (option_copied object.entry) }
{
    match object {
        Some(object) => {
            if object.is_of(Kind::Revision) {
                object.body.pins()
            } else {
                &[]
            }
        }
        None => &[],
    }
}

/// Marks a key.
pub fn mark(
    alloc: Global,
    keys: &mut SlotTable<Mark>,
    controller: Controller,
    name: &Name,
) -> Result<(), AllocError>
    ensures ok { OnOk result (keys.new ≡ marked (slot_key controller name.now) keys.old) }
    ensures err { OnErr result (keys.new ≡ keys.old) }
{
    let name = name.copy(alloc)?;
    keys.hold(Mark {
        key: SlotKey { controller, name },
    })?;
    Ok(())
}

// Marks a key, where the change touches it.
fn mark_if(
    alloc: Global,
    keys: &mut SlotTable<Mark>,
    change: &Change,
    controller: Controller,
    name: &Name,
) -> Result<(), AllocError>
    ensures adds { Adds (IsTouched change.now) keys.old keys.new }
    ensures all { OnOk result (IsTouched change.now (slot_key controller name.now) → is_marked (slot_key controller name.now) keys.new ≡ true) }
{
    if change.touches(controller, name) {
        mark(alloc, keys, controller, name)?;
    }
    Ok(())
}

// Marks the controller's key of the simple name in the namespace of the change, where the change touches it.
fn mark_beside(
    alloc: Global,
    keys: &mut SlotTable<Mark>,
    change: &Change,
    controller: Controller,
    name: &str,
) -> Result<(), AllocError>
    ensures adds { Adds (IsTouched change.now) keys.old keys.new }
    ensures all { OnOk result (IsTouched change.now (slot_key controller (beside change.now.key.name name.now)) → is_marked (slot_key controller (beside change.now.key.name name.now)) keys.new ≡ true) }
{
    let space = change.key.name.space.copy(alloc)?;
    let name = Text::new(alloc, name)?;
    mark_if(alloc, keys, change, controller, &Name { space, name })?;
    Ok(())
}

// Marks the controller's keys of the names that a Revision's is under, where the change touches them: each front of its
// name that a dash follows.
fn mark_over(
    alloc: Global,
    keys: &mut SlotTable<Mark>,
    change: &Change,
    controller: Controller,
) -> Result<(), AllocError>
    ensures adds { Adds (IsTouched change.now) keys.old keys.new }
    ensures all { OnOk result (MarksOver change.now controller keys.new) }
{
    if change.key.kind != Kind::Revision {
        return Ok(());
    }
    let text = change.key.name.name.as_str();
    for end in 0..text.len() {
        if text.as_bytes()[end] == b'-' {
            mark_beside(alloc, keys, change, controller, &text[..end])?;
        }
    }
    Ok(())
}

// Marks the controller's keys of the names of these objects, where the change touches them.
fn mark_each(
    alloc: Global,
    keys: &mut SlotTable<Mark>,
    change: &Change,
    controller: Controller,
    objects: &Walk<Object>,
) -> Result<(), AllocError>
    ensures adds { Adds (IsTouched change.now) keys.old keys.new }
    ensures all { OnOk result (MarksEach change.now controller objects.now keys.new) }
{
    for place in 0..objects.len() {
        mark_if(alloc, keys, change, controller, &objects.at(place).key.name)?;
    }
    Ok(())
}

// Marks the Service that the change touches.
fn mark_services(
    alloc: Global,
    keys: &mut SlotTable<Mark>,
    change: &Change,
) -> Result<(), AllocError>
    ensures adds { Adds (IsTouched change.now) keys.old keys.new }
    ensures all { OnOk result (MarksAll change.now Controller.Service keys.new) }
{
    mark_if(alloc, keys, change, Controller::Service, &change.key.name)?;
    Ok(())
}

// Marks the Configurations that it touches.
fn mark_configurations(
    alloc: Global,
    keys: &mut SlotTable<Mark>,
    change: &Change,
) -> Result<(), AllocError>
    ensures adds { Adds (IsTouched change.now) keys.old keys.new }
    ensures all { OnOk result (MarksAll change.now Controller.Configuration keys.new) }
{
    mark_if(
        alloc,
        keys,
        change,
        Controller::Configuration,
        &change.key.name,
    )?;
    mark_over(alloc, keys, change, Controller::Configuration)?;
    Ok(())
}

// Marks the Revisions that it touches.
fn mark_revisions(
    alloc: Global,
    keys: &mut SlotTable<Mark>,
    change: &Change,
) -> Result<(), AllocError>
    ensures adds { Adds (IsTouched change.now) keys.old keys.new }
    ensures all { OnOk result (MarksAll change.now Controller.Revision keys.new) }
{
    mark_if(alloc, keys, change, Controller::Revision, &change.key.name)?;
    if change.walks_revisions() {
        let revisions = change.store.walk(Kind::Revision);
        mark_each(alloc, keys, change, Controller::Revision, &revisions)?;
    }
    Ok(())
}

// Marks the Collectors that it touches.
fn mark_collectors(
    alloc: Global,
    keys: &mut SlotTable<Mark>,
    change: &Change,
) -> Result<(), AllocError>
    ensures adds { Adds (IsTouched change.now) keys.old keys.new }
    ensures all { OnOk result (MarksAll change.now Controller.Collector keys.new) }
{
    mark_if(alloc, keys, change, Controller::Collector, &change.key.name)?;
    mark_over(alloc, keys, change, Controller::Collector)?;
    if change.names_revisions() {
        let configurations = change.store.walk(Kind::Configuration);
        mark_each(alloc, keys, change, Controller::Collector, &configurations)?;
    }
    Ok(())
}

// Marks the Routes that have a pin at what is there, where the change touches them.
fn mark_pins(
    alloc: Global,
    keys: &mut SlotTable<Mark>,
    change: &Change,
    object: Option<&Object>,
) -> Result<(), AllocError>
    ensures adds { Adds (IsTouched change.now) keys.old keys.new }
    ensures all { OnOk result (MarksPins change.now (option_copied object.entry) keys.new) }
{
    for pin in pins_in(object) {
        mark_beside(alloc, keys, change, Controller::Route, pin.as_str())?;
    }
    Ok(())
}

// Marks the Routes that it touches.
fn mark_routes(alloc: Global, keys: &mut SlotTable<Mark>, change: &Change) -> Result<(), AllocError>
    ensures adds { Adds (IsTouched change.now) keys.old keys.new }
    ensures all { OnOk result (MarksAll change.now Controller.Route keys.new) }
{
    mark_if(alloc, keys, change, Controller::Route, &change.key.name)?;
    mark_pins(alloc, keys, change, change.old)?;
    mark_pins(alloc, keys, change, change.new)?;
    if change.is_read_by_targets() {
        mark_readers(alloc, keys, change)?;
    }
    Ok(())
}

/// Marks the keys that it touches.
pub fn mark_all(
    alloc: Global,
    keys: &mut SlotTable<Mark>,
    change: &Change,
) -> Result<(), AllocError>
    ensures adds { Adds (IsTouched change.now) keys.old keys.new }
    ensures all { OnOk result ((controller : Controller) → MarksAll change.now controller keys.new) }
{
    mark_services(alloc, keys, change)?;
    mark_configurations(alloc, keys, change)?;
    mark_revisions(alloc, keys, change)?;
    mark_collectors(alloc, keys, change)?;
    mark_routes(alloc, keys, change)?;
    Ok(())
}
