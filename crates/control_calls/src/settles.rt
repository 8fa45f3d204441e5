//! Settles.
ghost use Rattle.std.specs.Prelude.{◌≡◌, IfOk};
ghost use Rattle.http_session.specs.Reply.{IsReply};
ghost use Rattle.manifest_intake.specs.Good.{is_good};
ghost use Rattle.control_rules.specs.Events.{Works, Leads};
ghost use Rattle.control_calls.specs.Calls as spec;

use crate::room::Room;
use http_session::Reply;
use std::alloc::{AllocError, Global};
use step_scheduler::Plane;

/// Lets the controllers work until nothing is due, and answers the number of turns.
///
/// A want of memory keeps the writes that were made before it.
pub fn settling(alloc: Global, plane: &mut Plane) -> Result<Reply, AllocError>
    ensures ok { IfOk result (λ reply. spec.Settles plane.old.plane reply plane.new.plane) }
    ensures reply { IfOk result IsReply }
    ensures works { Works plane.old.plane plane.new.plane }
    ensures leads { Leads is_good plane.old.plane plane.new.plane }
{
    let room = Room::new(alloc)?;
    let turns = plane.settle()?;
    Ok(room.settle(plane.store().version(), turns))
}
