//! The bodies of replies to control calls, in room that is taken before anything is changed.
ghost use Rattle.std.specs.Prelude.{◌≡◌, ◌+◌, ◌≤◌, ◌++◌, [], length, IfOk, codes, decimal};
ghost use Rattle.http_session.specs.Reply.{IsReply};
ghost use Rattle.control_calls.specs.Texts.{success, truth_text, outcome_text, report_text, clock_text, settle_text, summary_text};

use crate::summary::Summary;
use control_rules::StepOutcome;
use http_session::{Allow, Reply};
use itoa::Buffer;
use json_tree::Seq;
use std::alloc::{AllocError, Global};
use std::marker::Model;

/// The least room, in bytes: no body of a control call's reply is longer.
const ROOM: usize = 512;

/// Room that each body fits. To fill it takes no memory.
#[derive(Drop)]
pub(crate) struct Room {
    bytes: Vec<u8>,
}

impl Model for Room {
    ghost use Rattle.std.specs.Prelude.{◌≤◌, List, ℕ};
    ghost use Rattle.std.specs.Vec.{vec_capacity};
    ghost use Rattle.control_calls.specs.declared.room.TheConstants.{ROOM};

    ghost Value = { List ℕ };

    ghost view = { λ r. r.bytes.items };

    ghost invariant = { λ r. ROOM ≤ vec_capacity r.bytes };
}

impl Room {
    /// Takes the room.
    pub fn new(alloc: Global) -> Result<Room, AllocError>
        ensures { IfOk result (λ room. room ≡ []) }
    {
        let bytes = Vec::with_capacity(alloc, ROOM)?;
        Ok(Room { bytes })
    }

    /// Writes behind what was written.
    fn push(&mut self, text: &str)
        requires { length self.old + length text.now ≤ ROOM }
        ensures { self.new ≡ self.old ++ text.now }
    {
        let _ = self.bytes.extend_from_slice(text.as_bytes());
    }

    /// Writes a number in decimal.
    fn push_number(&mut self, number: u64)
        requires { length self.old + 20 ≤ ROOM }
        ensures text { self.new ≡ self.old ++ decimal number }
        ensures short { length self.new ≤ length self.old + 20 }
    {
        let mut digits = Buffer::new();
        self.push(digits.format(number));
    }

    /// Writes a piece of text, and a number behind it.
    fn push_with(&mut self, text: &str, number: u64)
        requires { length self.old + length text.now + 20 ≤ ROOM }
        ensures text { self.new ≡ self.old ++ text.now ++ decimal number }
        ensures short { length self.new ≤ length self.old + length text.now + 20 }
    {
        self.push(text);
        self.push_number(number);
    }

    /// The reply of success with what was written as its body.
    fn reply(self) -> Reply
        ensures value { result ≡ success self }
        ensures reply { IsReply result }
    {
        Reply {
            code: 200,
            allow: Allow::None,
            body: Seq::from_vec(self.bytes),
        }
    }

    /// The reply to a step.
    #[tactic(auto, unfolding(crate::specs::Texts::outcome_text))]
    pub fn outcome(mut self, outcome: StepOutcome) -> Reply
        requires { self ≡ [] }
        ensures value { result ≡ success (outcome_text outcome) }
        ensures reply { IsReply result }
    {
        match outcome {
            StepOutcome::Looked { seen } => {
                self.push_with("{\"outcome\":\"Looked\",\"seen\":", seen);
                self.push("}");
            }
            StepOutcome::Planned => self.push("{\"outcome\":\"Planned\"}"),
            StepOutcome::Nothing => self.push("{\"outcome\":\"Nothing\"}"),
            StepOutcome::Wrote { version } => {
                self.push_with("{\"outcome\":\"Wrote\",\"version\":", version);
                self.push("}");
            }
            StepOutcome::Stale { newer } => {
                self.push_with("{\"newer\":", newer);
                self.push(",\"outcome\":\"Stale\"}");
            }
            StepOutcome::Unknown => self.push("{\"outcome\":\"Unknown\"}"),
            StepOutcome::Empty => self.push("{\"outcome\":\"Empty\"}"),
        }
        self.reply()
    }

    /// The reply to a report.
    #[tactic(auto, unfolding(crate::specs::Texts::report_text))]
    pub fn report(mut self, changed: bool, version: u64) -> Reply
        requires { self ≡ [] }
        ensures value { result ≡ success (report_text changed version) }
        ensures reply { IsReply result }
    {
        self.push("{\"changed\":");
        self.push(if changed { "true" } else { "false" });
        self.push_with(",\"resourceVersion\":\"", version);
        self.push("\"}");
        self.reply()
    }

    /// The reply to a move of the clock.
    #[tactic(auto, unfolding(crate::specs::Texts::clock_text))]
    pub fn clock(mut self, now: u64) -> Reply
        requires { self ≡ [] }
        ensures value { result ≡ success (clock_text now) }
        ensures reply { IsReply result }
    {
        self.push_with("{\"now\":", now);
        self.push("}");
        self.reply()
    }

    /// The reply to a settle.
    #[tactic(auto, unfolding(crate::specs::Texts::settle_text))]
    pub fn settle(mut self, journal: u64, turns: u64) -> Reply
        requires { self ≡ [] }
        ensures value { result ≡ success (settle_text journal turns) }
        ensures reply { IsReply result }
    {
        self.push_with("{\"journal\":", journal);
        self.push_with(",\"turns\":", turns);
        self.push("}");
        self.reply()
    }

    /// The reply that shows a summary.
    #[tactic(auto, unfolding(crate::specs::Texts::summary_text))]
    pub fn summary(mut self, summary: Summary) -> Reply
        requires { self ≡ [] }
        ensures value { result ≡ success (summary_text summary) }
        ensures reply { IsReply result }
    {
        self.push_with("{\"configurations\":", summary.configurations);
        self.push_with(",\"health\":", summary.health);
        self.push_with(",\"journal\":", summary.journal);
        self.push_with(",\"now\":", summary.now);
        self.push_with(",\"revisions\":", summary.revisions);
        self.push_with(",\"routes\":", summary.routes);
        self.push_with(",\"services\":", summary.services);
        self.push_with(",\"tables\":", summary.tables);
        self.push("}");
        self.reply()
    }
}
