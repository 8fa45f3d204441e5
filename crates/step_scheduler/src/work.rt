//! The work on one slot: it looks, plans and writes.
ghost use Rattle.std.specs.Prelude.{◌≡◌, ◌≤◌, ◌<◌, ◌-◌, ◌^◌, length, IfOk, OnErr};
ghost use Rattle.resource_types.specs.Lookups.{state};
ghost use Rattle.step_scheduler.specs.Looking.{CanLook};
ghost use Rattle.step_scheduler.specs.Rows.{stage_of, row_of};
ghost use Rattle.step_scheduler.specs.Works.{HoldsLook, IsPlannedAt, Writes};

use crate::controllers;
use crate::held::{Held, Stage, outcome_of};
use control_rules::{Settings, StepOutcome};
use controller_parts::plan_of;
use json_tree::Copied;
use resource_types::{Actor, Object, SlotKey};
use slot_table::{Slot, SlotTable};
use std::alloc::{AllocError, Global};
use version_store::{Store, Write};

/// Where the key's slot is, with the plan that its view means.
pub fn stage(
    alloc: Global,
    slots: &SlotTable<Slot<SlotKey, Held>>,
    key: &SlotKey,
) -> Result<Stage, AllocError>
    ensures { IfOk result (λ stage. stage ≡ stage_of (row_of key.now slots.now)) }
{
    let Some(slot) = slots.find(key) else {
        return Ok(Stage::Idle);
    };
    match &slot.held {
        Held::View(view) => Ok(Stage::Looked(plan_of(alloc, view)?)),
        Held::Plan(_) => Ok(Stage::Planned),
    }
}

/// An idle slot looks. The answer is how many entries it saw.
pub fn look(
    alloc: Global,
    settings: &Settings,
    store: &Store<Object>,
    now: u64,
    slots: &mut SlotTable<Slot<SlotKey, Held>>,
    key: &SlotKey,
) -> Result<u64, AllocError>
    requires { CanLook key.now.controller (state store.now.entries) now }
    ensures ok { IfOk result (HoldsLook settings.now store.now.entries now key.now slots.old slots.new) }
    ensures err { OnErr result (slots.new ≡ slots.old) }
{
    let own = key.copy(alloc)?;
    let view = controllers::look(alloc, settings, store, key, now)?;
    let seen = store.version();
    slots.hold(Slot {
        key: own,
        seen,
        read_at: now,
        held: Held::View(view),
    })?;
    Ok(seen)
}

/// A slot that has planned writes its plan, and is idle.
pub fn write(
    store: &mut Store<Object>,
    now: u64,
    slots: &mut SlotTable<Slot<SlotKey, Held>>,
    key: &SlotKey,
) -> StepOutcome
    requires planned { IsPlannedAt key.now slots.old }
    requires spare { 1 ≤ store.old.spare }
    requires room { length store.old.entries < 2 ^ 64 - 1 }
    ensures { Writes store.old.entries store.new.entries now key.now slots.old slots.new result }
{
    match slots.take(key) {
        Some(
            Slot {
                key,
                seen,
                read_at,
                held,
            },
        ) => match held {
            Held::Plan(plan) => outcome_of(store.apply(Write {
                plan,
                actor: Actor::Controller(key),
                seen,
                read_at,
                moment: now,
            })),
            Held::View(_) => unreachable!(),
        },
        None => unreachable!(),
    }
}
