//! The world: its plane and its marks, and how it answers requests.
ghost use Rattle.std.specs.Prelude.{◌≡◌, ◌≢◌, ◌⊎◌, ◌≤◌, ◌↔◌, [], IfOk, OnOk, OnErr, IsErr};
ghost use Rattle.std.specs.Option.{ForSome};
ghost use Rattle.serve_names.specs.Moments.{last_moment};
ghost use Rattle.manifest_intake.specs.Good.{is_good};
ghost use Rattle.control_rules.specs.Slots.{new_plane};
ghost use Rattle.control_rules.specs.Facts.{IsKept};
ghost use Rattle.api_server.specs.Ask as spec;

use crate::mark::Mark;
use crate::requests::answer;
use http_session::{Handler, Reply, Request};
use json_tree::Seq;
use std::alloc::{AllocError, Global};
use std::marker::Model;
use step_scheduler::{Plane, Settings, SettingsKept, StepOutcome};

/// A world: the plane, the number of automatic steps behind each reply, and a mark for each request that was answered.
///
/// Contracts see it as these three.
#[derive(Drop)]
pub struct World {
    alloc: Global,
    plane: Plane,
    auto: u64,
    marks: Seq<Mark>,
}

impl Model for World {
    ghost use Rattle.api_server.specs.Ask.{WorldView};
    ghost use Rattle.json_tree.specs.contracts.value.Json as json;
    ghost use Rattle.std.specs.Coded.{codes};

    ghost Value = { WorldView };

    ghost coded = { Prim.hlevel (codes, json.the_row.coded) };

    ghost view = { λ w. record { plane = w.plane.plane; auto = w.auto; marks = w.marks } };
}

impl World {
    /// A world in which nothing was written, at moment 0, without automatic steps.
    pub fn new(alloc: Global, settings: Settings) -> World
        ensures plane { result.plane ≡ new_plane settings }
        ensures auto { result.auto ≡ 0 }
        ensures marks { result.marks ≡ [] }
    {
        World {
            alloc,
            plane: Plane::new(alloc, settings),
            auto: 0,
            marks: Seq::new(alloc),
        }
    }

    /// The plane: all that was written, and what the controllers hold.
    pub fn plane(&self) -> &Plane
        ensures { result.now.plane ≡ self.now.plane }
    {
        &self.plane
    }

    /// Sets the settings of the controllers. Once something was written they are kept.
    pub fn set_settings(&mut self, settings: Settings) -> Result<(), SettingsKept>
        ensures ok { OnOk result (self.new ≡ record self.old { plane = record self.old.plane { settings = settings } }) }
        ensures kept { IsErr result ↔ ((self.old.plane.journal ≢ []) × (self.old.plane.settings ≢ settings)) }
        ensures taken { OnOk result ((self.old.plane.journal ≡ []) ⊎ (self.old.plane.settings ≡ settings)) }
        ensures err { OnErr result (self.new ≡ self.old) }
    {
        self.plane.set_settings(settings)
    }

    /// Sets how many steps the controllers make behind each reply.
    pub fn set_auto(&mut self, steps: u64)
        ensures { self.new ≡ record self.old { auto = steps } }
    {
        self.auto = steps;
    }

    /// A mark for each request that was answered, in order.
    pub fn marks(&self) -> &Seq<Mark>
        ensures { result.now ≡ self.now.marks }
    {
        &self.marks
    }

    // Moves the clock on to the moment of a request, where that is later.
    fn move_clock(&mut self, now: Option<u64>)
        requires { ForSome now (λ moment. moment ≤ last_moment) }
        ensures { self.new ≡ record self.old { plane = spec.at_moment self.old.plane now } }
    {
        match now {
            Some(now) if now > self.plane.now() => {
                let _ = self.plane.set_clock(now);
            }
            _ => {}
        }
    }

    // What the present request finds.
    fn mark(&self) -> Mark
        ensures mark { result ≡ spec.mark_at self.now.plane }
        ensures kept { IsKept is_good self.now.plane }
    {
        Mark {
            position: self.plane.store().version(),
            moment: self.plane.now(),
        }
    }
}

impl Handler for World {
    ghost use Rattle.api_server.specs.Ask.{Asks, AskCut, After, AfterCut};

    ghost asks = { Asks };

    ghost asks_cut = { AskCut };

    ghost after_gives = { After };

    ghost after_cut = { AfterCut };

    /// Answers a request over the plane as it stands, and notes its mark.
    ///
    /// After a refusal the plane is as before and the mark is added. After a want of memory there is no mark, and the plane is as
    /// before, save that the clock may have moved and that a settle keeps the writes that were made before.
    fn handle(&mut self, now: Option<u64>, request: &Request) -> Result<Reply, AllocError> {
        self.move_clock(now);
        let mark = self.mark();
        self.marks.push(mark)?;
        match answer(self.alloc, &mut self.plane, request) {
            Ok(reply) => Ok(reply),
            Err(error) => {
                self.marks.pop();
                Err(error)
            }
        }
    }

    /// Makes the automatic steps of the controllers, and ends early where there is nothing that they work on.
    fn after(&mut self) -> Result<(), AllocError> {
        for _ in 0..self.auto {
            if let StepOutcome::Empty = self.plane.cursor_step()? {
                break;
            }
        }
        Ok(())
    }
}
