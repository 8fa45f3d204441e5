//! What answers the requests of a session.
ghost use Rattle.std.specs.Prelude.{ℕ, ◌≤◌, Option, IfOk, OnOk, OnErr};
ghost use Rattle.std.specs.Option.{ForSome};
ghost use Rattle.serve_io.specs.Clock.{last_moment};
ghost use Rattle.http_session.specs.declared.message.Request.{Request};
ghost use Rattle.http_session.specs.declared.message.Reply.{Reply};
ghost use Rattle.http_session.specs.Reply.{IsReply};

use crate::message::{Reply, Request};
use std::alloc::AllocError;

/// A handler means what it does with a request and behind a reply, by four relations between its value before and its value
/// after: `asks`, with the moment, the request and the reply; `after_gives`; and where it is out of memory `asks_cut`, with the moment
/// and the request, and `after_cut`.
pub trait Handler {
    ghost asks: { Self → Option ℕ → Request → Reply → Self → Type 0 };

    ghost asks_cut: { Self → Option ℕ → Request → Self → Type 0 };

    ghost after_gives: { Self → Self → Type 0 };

    ghost after_cut: { Self → Self → Type 0 };

    /// Answers a request. The moment, in seconds from 1970, is there where the session asks its clock.
    fn handle(&mut self, now: Option<u64>, request: &Request) -> Result<Reply, AllocError>
        requires moment { ForSome now (λ moment. moment ≤ last_moment) }
        ensures asked { IfOk result (λ reply. asks self.old now request.now reply self.new) }
        ensures reply { IfOk result IsReply }
        ensures cut { OnErr result (asks_cut self.old now request.now self.new) };

    /// Does its own work, once the reply to a request was written.
    fn after(&mut self) -> Result<(), AllocError>
        ensures done { OnOk result (after_gives self.old self.new) }
        ensures cut { OnErr result (after_cut self.old self.new) };
}
