//! The plane, and its events.
ghost use Rattle.std.specs.Prelude.{◌≡◌, ◌≢◌, ◌⊎◌, ◌↔◌, ◌≤◌, ◌<◌, ◌-◌, ◌^◌, [], length, Err, IfOk, OnOk, OnErr, IfErr, IsErr};
ghost use Rattle.version_store.specs.Apply.{spare_after};
ghost use Rattle.serve_names.specs.Moments.{last_moment};
ghost use Rattle.resource_codec.specs.Storable.{AreStorable};
ghost use Rattle.manifest_intake.specs.Good.{is_good};
ghost use Rattle.control_rules.specs.Slots.{look_of, slot_of, new_plane, present};
ghost use Rattle.control_rules.specs.Steps.{client_write_of, step_of};
ghost use Rattle.control_rules.specs.Lawful.{MayWrite};
ghost use Rattle.control_rules.specs.Facts.{IsKept, PlaneFacts};
ghost use Rattle.step_scheduler.specs.Counts.{looks_with, looks_after};
ghost use Rattle.step_scheduler.specs.Looking.{CanLook};
ghost use Rattle.step_scheduler.specs.Causes.{IsCaused, IsTaken, HasNoRevision};
ghost use Rattle.step_scheduler.specs.Reported.{IsReport, Hears};
ghost use Rattle.step_scheduler.specs.Planes.{Is, Steps, Stays, IsSafeThroughout, RemovesUnusedAlone};
ghost use Rattle.step_scheduler.specs.Touched.{IsUntouched, IsRevisionKey, IsCollectorKey, TouchesSame, TouchesAtMost, TouchesByEntries};

mod next;
mod slots;
mod touched;

use crate::counts::one_more;
use crate::held::{Held, Stage};
use crate::refusals::{ClockBack, ReportError, SettingsKept};
use crate::reports::{report_plan, uid_of};
use crate::settings::are_same;
use crate::work::{look, stage, write};
use control_rules::{Report, Settings, Slot, StepOutcome};
use resource_types::{Actor, Controller, Object, SlotKey};
use slot_keys::is_key;
use slot_table::SlotTable;
use std::alloc::{AllocError, Global};
use std::marker::Model;
use touched_keys::Marks;
use version_store::{Applied, Plan, Store, Write};

/// The store of all that was written, the moment, and what each slot holds.
///
/// Contracts see it as the plane of the rules; as a number `spare`, for how many more entries there is memory; as two
/// counts, of looks and of turns, since it was made; and as a set of touched keys: to each other key nothing is due.
#[derive(Drop)]
pub struct Plane {
    alloc: Global,
    settings: Settings,
    store: Store<Object>,
    moment: u64,
    // A row for each slot that isn't idle. What it holds is what was due at its look.
    slots: SlotTable<slot_table::Slot<SlotKey, Held>>,
    cursor: Option<SlotKey>,
    look_count: u64,
    turn_count: u64,
    // The keys to which something may be due.
    marks: Marks,
}

impl Model for Plane {
    ghost use Rattle.json_tree.specs.contracts.value.Json as json;
    ghost use Rattle.std.specs.Coded.{codes};
    ghost use Rattle.step_scheduler.specs.Planes.{PlaneView, view_of, IsPlane};

    ghost Value = { PlaneView };

    ghost coded = { Prim.hlevel (codes, json.the_row.coded) };

    ghost view = { λ p. view_of p.settings p.store p.moment p.slots p.cursor p.look_count p.turn_count p.marks };

    ghost invariant = { λ p. IsPlane p.settings p.store.entries p.moment p.slots p.cursor p.marks };
}

impl Plane {
    /// A plane in which nothing was written, at moment 0.
    pub fn new(alloc: Global, settings: Settings) -> Plane
        ensures plane { result.plane ≡ new_plane settings }
        ensures spare { result.spare ≡ 0 }
        ensures looks { result.looks ≡ 0 }
        ensures turns { result.turns ≡ 0 }
        ensures untouched { IsUntouched result }
    {
        Plane {
            alloc,
            settings,
            store: Store::new(alloc),
            moment: 0,
            slots: SlotTable::new(alloc),
            cursor: None,
            look_count: 0,
            turn_count: 0,
            marks: Marks::new(alloc),
        }
    }

    /// The settings.
    pub fn settings(&self) -> &Settings
        ensures { result.now ≡ self.now.plane.settings }
    {
        &self.settings
    }

    /// Sets the settings. Once something was written they are kept.
    pub fn set_settings(&mut self, settings: Settings) -> Result<(), SettingsKept>
        ensures ok { OnOk result (self.new.plane ≡ record self.old.plane { settings = settings }) }
        ensures kept { IsErr result ↔ ((self.old.plane.journal ≢ []) × (self.old.plane.settings ≢ settings)) }
        ensures taken { OnOk result ((self.old.plane.journal ≡ []) ⊎ (self.old.plane.settings ≡ settings)) }
        ensures err { OnErr result (self.new.plane ≡ self.old.plane) }
        ensures spare { self.new.spare ≡ self.old.spare }
        ensures looks { self.new.looks ≡ self.old.looks }
        ensures turns { self.new.turns ≡ self.old.turns }
        ensures marks { self.new.marks ≡ self.old.marks }
        ensures touched { TouchesSame self.old self.new }
    {
        if self.store.version() == 0 {
            self.settings = settings;
            return Ok(());
        }
        if are_same(&self.settings, &settings) {
            return Ok(());
        }
        Err(SettingsKept)
    }

    /// All that was written, and what stands by it.
    pub fn store(&self) -> &Store<Object>
        ensures entries { result.now.entries ≡ self.now.plane.journal }
        ensures spare { result.now.spare ≡ self.now.spare }
        // The journal is lawful, and each slot looks back at it.
        ensures kept { IsKept is_good self.now.plane }
        // So reports stand behind readiness, times tell when truths changed, and more.
        ensures facts { PlaneFacts is_good self.now.plane }
        // What each entry puts can be shown, and is at most so deep as what a client may send.
        ensures storable { AreStorable self.now.plane.journal }
        // Each controller may look at the present state.
        ensures fits { (c : Controller) → CanLook c (present self.now.plane) self.now.plane.now }
    {
        &self.store
    }

    /// The moment, in whole seconds from 1970.
    pub fn now(&self) -> u64
        ensures { result ≡ self.now.plane.now }
    {
        self.moment
    }

    /// What the slot of the key holds.
    pub fn slot(&self, key: &SlotKey) -> Slot
        ensures { result ≡ slot_of (look_of key.now self.now.plane.slots) }
    {
        match self.slots.find(key) {
            Some(slot) => match &slot.held {
                Held::View(_) => Slot::Looked {
                    seen: slot.seen,
                    read_at: slot.read_at,
                },
                Held::Plan(_) => Slot::Planned {
                    seen: slot.seen,
                    read_at: slot.read_at,
                },
            },
            None => Slot::Idle,
        }
    }

    /// How often a controller looked since the plane was made.
    pub fn looks(&self) -> u64
        ensures { result ≡ self.now.looks }
    {
        self.look_count
    }

    /// How many turns were made whole since the plane was made.
    pub fn turns(&self) -> u64
        ensures { result ≡ self.now.turns }
    {
        self.turn_count
    }

    /// Moves the moment on.
    pub fn set_clock(&mut self, moment: u64) -> Result<(), ClockBack>
        requires { moment ≤ last_moment }
        ensures ok { OnOk result (self.new.plane ≡ record self.old.plane { now = moment }) }
        ensures back { IsErr result ↔ (moment < self.old.plane.now) }
        ensures stands { IfErr result (λ e. e.now ≡ self.old.plane.now) }
        ensures err { OnErr result (self.new.plane ≡ self.old.plane) }
        ensures spare { self.new.spare ≡ self.old.spare }
        ensures looks { self.new.looks ≡ self.old.looks }
        ensures turns { self.new.turns ≡ self.old.turns }
        ensures touched { TouchesAtMost IsCollectorKey self.old self.new }
        ensures still { self.new.plane.now ≡ self.old.plane.now → TouchesSame self.old self.new }
    {
        if moment < self.moment {
            return Err(ClockBack { now: self.moment });
        }
        if moment == self.moment {
            return Ok(());
        }
        self.marks.note_moment();
        self.moment = moment;
        Ok(())
    }

    /// Takes the memory for an entry. After its `Ok` a client can write.
    pub fn prepare(&mut self) -> Result<(), AllocError>
        ensures plane { self.new.plane ≡ self.old.plane }
        ensures spare { OnOk result (1 ≤ self.new.spare) }
        ensures more { self.old.spare ≤ self.new.spare }
        ensures room { OnOk result (length self.new.plane.journal < 2 ^ 64 - 1) }
        ensures err { OnErr result (self.new.spare ≡ self.old.spare) }
        ensures looks { self.new.looks ≡ self.old.looks }
        ensures turns { self.new.turns ≡ self.old.turns }
        ensures marks { self.new.marks ≡ self.old.marks }
        ensures touched { TouchesSame self.old self.new }
    {
        self.store.prepare()
    }

    /// Makes a client's write, or answers why it is not made. It takes no memory.
    ///
    /// A client puts a good object of its kinds, with the owner and the status of what stands; or it removes an object of
    /// these kinds, or a Revision that isn't in use.
    pub fn client_write(&mut self, plan: Plan<Object>) -> Applied
        requires may { MayWrite is_good (present self.old.plane) plan }
        requires spare { 1 ≤ self.old.spare }
        requires room { length self.old.plane.journal < 2 ^ 64 - 1 }
        ensures event { Is (client_write_of self.old.plane plan) self.new.plane result }
        ensures spare { self.new.spare ≡ spare_after result self.old.spare }
        ensures looks { self.new.looks ≡ self.old.looks }
        ensures turns { self.new.turns ≡ self.old.turns }
        ensures marks { self.new.marks ≡ self.old.marks }
        ensures touched { TouchesByEntries self.old self.new }
        ensures safe { IsSafeThroughout self.new.plane.journal }
        ensures unused { RemovesUnusedAlone self.new.plane.journal }
    {
        let seen = self.store.version();
        self.store.apply(Write {
            plan,
            actor: Actor::Client,
            seen,
            read_at: self.moment,
            moment: self.moment,
        })
    }

    /// Puts the Health of the Revision that the report is on. It was ready once where both parts are in order now, or where
    /// the Health that stands says so of the same uid.
    pub fn report(&mut self, report: Report) -> Result<Applied, ReportError>
        ensures event { IsReport self.old.plane report self.new.plane result }
        ensures absent { (result ≡ Err ReportError.NoSuchRevision)
            ↔ HasNoRevision (present self.old.plane) report.revision }
        ensures taken { IfOk result IsTaken }
        ensures err { OnErr result (self.new.plane ≡ self.old.plane) }
        ensures looks { self.new.looks ≡ self.old.looks }
        ensures turns { self.new.turns ≡ self.old.turns }
        ensures marks { self.new.marks ≡ self.old.marks }
        ensures touched { TouchesAtMost (IsRevisionKey report.revision) self.old self.new }
        ensures still { TouchesByEntries self.old self.new }
        ensures safe { IsSafeThroughout self.new.plane.journal }
        ensures unused { RemovesUnusedAlone self.new.plane.journal }
    {
        self.hear(report)
    }

    // The report, before what follows from it is said.
    fn hear(&mut self, report: Report) -> Result<Applied, ReportError>
        ensures event { Hears self.old.plane report self.new.plane result }
        ensures looks { self.new.looks ≡ self.old.looks }
        ensures turns { self.new.turns ≡ self.old.turns }
        ensures marks { self.new.marks ≡ self.old.marks }
        ensures touched { TouchesAtMost (IsRevisionKey report.revision) self.old self.new }
    {
        let Some(uid) = uid_of(&self.store, &report.revision) else {
            return Err(ReportError::NoSuchRevision);
        };
        if self.store.prepare().is_err() {
            return Err(ReportError::Memory);
        }
        match report_plan(self.alloc, &self.store, report, uid) {
            Ok(plan) => {
                let seen = self.store.version();
                Ok(
                    self.store.apply(Write {
                        plan,
                        actor: Actor::Reporter,
                        seen,
                        read_at: self.moment,
                        moment: self.moment,
                    }),
                )
            }
            Err(_) => Err(ReportError::Memory),
        }
    }

    /// A step of a slot: it looks, plans or writes, or is idled where its name is none that its controller works on.
    pub fn step(&mut self, key: &SlotKey) -> Result<StepOutcome, AllocError>
        ensures ok { IfOk result (Is (step_of self.old.plane key.now) self.new.plane) }
        ensures causes { IfOk result (IsCaused self.old.plane key.now) }
        ensures err { OnErr result (self.new.plane ≡ self.old.plane) }
        ensures looks { self.new.looks ≡ looks_after result self.old.looks }
        ensures turns { self.new.turns ≡ self.old.turns }
        ensures marks { self.new.marks ≡ self.old.marks }
        ensures touched { TouchesByEntries self.old self.new }
        ensures safe { IsSafeThroughout self.new.plane.journal }
        ensures unused { RemovesUnusedAlone self.new.plane.journal }
    {
        let answer = self.step_slot(key)?;
        self.count_look(answer);
        Ok(answer)
    }

    // The step, before it is counted.
    fn step_slot(&mut self, key: &SlotKey) -> Result<StepOutcome, AllocError>
        ensures ok { IfOk result (Steps self.old.plane key.now self.new.plane) }
        ensures err { OnErr result (Stays self.old.plane self.new.plane) }
        ensures looks { self.new.looks ≡ self.old.looks }
        ensures turns { self.new.turns ≡ self.old.turns }
        ensures marks { self.new.marks ≡ self.old.marks }
    {
        if !is_key(&self.store, key) {
            self.slots.idle(key);
            return Ok(StepOutcome::Unknown);
        }
        match stage(self.alloc, &self.slots, key)? {
            Stage::Idle => {
                let seen = look(
                    self.alloc,
                    &self.settings,
                    &self.store,
                    self.moment,
                    &mut self.slots,
                    key,
                )?;
                Ok(StepOutcome::Looked { seen })
            }
            Stage::Looked(None) => {
                self.slots.idle(key);
                Ok(StepOutcome::Nothing)
            }
            Stage::Looked(Some(plan)) => {
                self.slots.set_held(key, Held::Plan(plan));
                Ok(StepOutcome::Planned)
            }
            Stage::Planned => {
                self.store.prepare()?;
                Ok(write(&mut self.store, self.moment, &mut self.slots, key))
            }
        }
    }

    // Counts a look, where the step was one.
    fn count_look(&mut self, answer: StepOutcome)
        ensures plane { self.new.plane ≡ self.old.plane }
        ensures looks { self.new.looks ≡ looks_with answer self.old.looks }
        ensures turns { self.new.turns ≡ self.old.turns }
        ensures marks { self.new.marks ≡ self.old.marks }
    {
        if let StepOutcome::Looked { seen: _ } = answer {
            self.look_count = one_more(self.look_count);
        }
    }
}
