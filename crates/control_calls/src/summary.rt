//! The summary.
ghost use Rattle.std.specs.Prelude.{◌≡◌, IfOk};
ghost use Rattle.http_session.specs.Reply.{IsReply};
ghost use Rattle.control_calls.specs.Calls as spec;

use crate::room::Room;
use http_session::Reply;
use resource_types::Kind;
use std::alloc::{AllocError, Global};
use step_scheduler::Plane;

/// The numbers that a summary shows.
#[derive(Clone, Copy, Debug, PartialEq, Eq)]
pub struct Summary {
    /// How many Configurations stand, in all namespaces, as below.
    pub configurations: u64,
    /// How many Healths.
    pub health: u64,
    /// The length of the journal.
    pub journal: u64,
    /// The moment, in whole seconds from 1970.
    pub now: u64,
    /// How many Revisions.
    pub revisions: u64,
    /// How many Routes.
    pub routes: u64,
    /// How many Services.
    pub services: u64,
    /// How many Tables.
    pub tables: u64,
}

/// The numbers of a plane.
pub fn summary_of(plane: &Plane) -> Summary
    ensures { result ≡ spec.summary_of plane.now.plane }
{
    let store = plane.store();
    Summary {
        configurations: store.count(Kind::Configuration),
        health: store.count(Kind::Health),
        journal: store.version(),
        now: plane.now(),
        revisions: store.count(Kind::Revision),
        routes: store.count(Kind::Route),
        services: store.count(Kind::Service),
        tables: store.count(Kind::Table),
    }
}

/// The reply that shows the summary of a plane.
pub fn summing(alloc: Global, plane: &Plane) -> Result<Reply, AllocError>
    ensures value { IfOk result (λ r. r ≡ spec.summary_reply plane.now.plane) }
    ensures reply { IfOk result IsReply }
{
    let room = Room::new(alloc)?;
    Ok(room.summary(summary_of(plane)))
}
