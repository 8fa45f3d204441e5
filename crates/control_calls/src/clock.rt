//! Moves of the clock.
ghost use Rattle.std.specs.Prelude.{◌≡◌, ◌≤◌, IfOk, OnErr};
ghost use Rattle.http_session.specs.Reply.{IsReply};
ghost use Rattle.serve_names.specs.Moments.{last_moment};
ghost use Rattle.step_scheduler.specs.Planes.{Is};
ghost use Rattle.control_calls.specs.Calls as spec;

use crate::refusal::ControlRefusal;
use crate::room::Room;
use answers::Stop;
use control_bodies::read_clock;
use http_session::Reply;
use json_tree::Json;
use std::alloc::{AllocError, Global};
use step_scheduler::{ClockBack, Plane};

/// Sets the clock, where it doesn't stand later.
fn set(alloc: Global, plane: &mut Plane, moment: u64) -> Result<Reply, AllocError>
    requires { moment ≤ last_moment }
    ensures ok { IfOk result (Is (spec.sets_clock plane.old.plane moment) plane.new.plane) }
    ensures reply { IfOk result IsReply }
    ensures err { OnErr result (plane.new.plane ≡ plane.old.plane) }
{
    let room = Room::new(alloc)?;
    match plane.set_clock(moment) {
        Ok(()) => Ok(room.clock(moment)),
        Err(ClockBack { now }) => ControlRefusal::ClockBack { now }.reply(alloc),
    }
}

/// Sets the clock to the moment that a body says.
///
/// It is refused for the first of these that holds: a field that is wrong, and `ClockBack`, where the clock stands later.
pub(crate) fn clocking(alloc: Global, plane: &mut Plane, body: &Json) -> Result<Reply, AllocError>
    ensures ok { IfOk result (Is (spec.clocking plane.old.plane body.now) plane.new.plane) }
    ensures reply { IfOk result IsReply }
    ensures err { OnErr result (plane.new.plane ≡ plane.old.plane) }
{
    match read_clock(body) {
        Ok(moment) => set(alloc, plane, moment),
        Err(Stop::Refused(field)) => ControlRefusal::WrongShape(field).reply(alloc),
        Err(Stop::Memory) => Err(AllocError),
    }
}
