//! Picked steps.
ghost use Rattle.std.specs.Prelude.{◌≡◌, IfOk, OnErr};
ghost use Rattle.http_session.specs.Reply.{IsReply};
ghost use Rattle.step_scheduler.specs.Planes.{Is};
ghost use Rattle.control_calls.specs.Calls as spec;

use crate::refusal::ControlRefusal;
use crate::room::Room;
use answers::Stop;
use control_bodies::read_step;
use http_session::Reply;
use json_tree::Json;
use resource_types::SlotKey;
use std::alloc::{AllocError, Global};
use step_scheduler::Plane;

/// Steps the slot of the key. The room for the reply is taken before the step.
fn step(alloc: Global, plane: &mut Plane, key: SlotKey) -> Result<Reply, AllocError>
    ensures ok { IfOk result (Is (spec.steps plane.old.plane key) plane.new.plane) }
    ensures reply { IfOk result IsReply }
    ensures err { OnErr result (plane.new.plane ≡ plane.old.plane) }
{
    let room = Room::new(alloc)?;
    let outcome = plane.step(&key)?;
    Ok(room.outcome(outcome))
}

/// Makes the step that a body picks. It is refused where a field is wrong, for the first one.
pub(crate) fn stepping(alloc: Global, plane: &mut Plane, body: &Json) -> Result<Reply, AllocError>
    ensures ok { IfOk result (Is (spec.stepping plane.old.plane body.now) plane.new.plane) }
    ensures reply { IfOk result IsReply }
    ensures err { OnErr result (plane.new.plane ≡ plane.old.plane) }
{
    match read_step(alloc, body) {
        Ok(key) => step(alloc, plane, key),
        Err(Stop::Refused(field)) => ControlRefusal::WrongShape(field).reply(alloc),
        Err(Stop::Memory) => Err(AllocError),
    }
}
