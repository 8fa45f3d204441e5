//! Control calls with a body.
ghost use Rattle.std.specs.Prelude.{◌≡◌, IfOk, OnErr};
ghost use Rattle.http_session.specs.Reply.{IsReply};
ghost use Rattle.manifest_intake.specs.Good.{is_good};
ghost use Rattle.control_rules.specs.Events.{Leads};
ghost use Rattle.step_scheduler.specs.Planes.{Is};
ghost use Rattle.control_calls.specs.Calls as spec;

use crate::clock::clocking;
use crate::reports::reporting;
use crate::steps::stepping;
use http_session::Reply;
use json_tree::Json;
use std::alloc::{AllocError, Global};
use step_scheduler::Plane;

/// A control call with a body.
#[derive(Clone, Copy, Debug, PartialEq, Eq)]
pub enum ControlCall {
    /// The health of a Revision is reported.
    Report,
    /// The clock is set.
    SetClock,
    /// A slot is stepped.
    Step,
}

/// Makes a control call with the value of its body.
///
/// It is refused for the first of these that holds: a field that is wrong; `NotFound` for a report, where no Revision of the
/// name stands; and `ClockBack` for the clock, where it stands later. Then, and out of memory, the plane is as before.
#[tactic(auto, unfolding(crate::specs::Calls::heard))]
pub fn hear(
    alloc: Global,
    plane: &mut Plane,
    call: ControlCall,
    body: &Json,
) -> Result<Reply, AllocError>
    ensures ok { IfOk result (Is (spec.heard call plane.old.plane body.now) plane.new.plane) }
    ensures reply { IfOk result IsReply }
    ensures leads { Leads is_good plane.old.plane plane.new.plane }
    ensures err { OnErr result (plane.new.plane ≡ plane.old.plane) }
{
    match call {
        ControlCall::Report => reporting(alloc, plane, body),
        ControlCall::SetClock => clocking(alloc, plane, body),
        ControlCall::Step => stepping(alloc, plane, body),
    }
}
