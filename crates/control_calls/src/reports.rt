//! Reports.
ghost use Rattle.std.specs.Prelude.{◌≡◌, IfOk, OnErr};
ghost use Rattle.http_session.specs.Reply.{IsReply};
ghost use Rattle.step_scheduler.specs.Planes.{Is};
ghost use Rattle.control_calls.specs.Calls as spec;

use crate::refusal::ControlRefusal;
use crate::room::Room;
use answers::Stop;
use api_outcomes::Refusal;
use control_bodies::read_report;
use control_rules::Report;
use http_session::Reply;
use json_tree::Json;
use resource_types::Kind;
use std::alloc::{AllocError, Global};
use step_scheduler::{Plane, ReportError};
use version_store::Applied;

/// Takes a report: the Health of its Revision is put.
fn take(alloc: Global, plane: &mut Plane, report: Report) -> Result<Reply, AllocError>
    ensures ok { IfOk result (Is (spec.reports plane.old.plane report) plane.new.plane) }
    ensures reply { IfOk result IsReply }
    ensures err { OnErr result (plane.new.plane ≡ plane.old.plane) }
{
    let room = Room::new(alloc)?;
    let name = report.revision.name.copy(alloc)?;
    match plane.report(report) {
        Ok(Applied::Done { version }) => Ok(room.report(true, version)),
        Ok(Applied::Same { version }) => Ok(room.report(false, version)),
        Ok(_) => unreachable!(),
        Err(ReportError::NoSuchRevision) => {
            let kind = Kind::Revision;
            ControlRefusal::Call(Refusal::NotFound { kind, name }).reply(alloc)
        }
        Err(ReportError::Memory) => Err(AllocError),
    }
}

/// Takes the report that a body is.
///
/// It is refused for the first of these that holds: a field that is wrong, and `NotFound`, where no Revision of the name
/// stands.
pub(crate) fn reporting(alloc: Global, plane: &mut Plane, body: &Json) -> Result<Reply, AllocError>
    ensures ok { IfOk result (Is (spec.reporting plane.old.plane body.now) plane.new.plane) }
    ensures reply { IfOk result IsReply }
    ensures err { OnErr result (plane.new.plane ≡ plane.old.plane) }
{
    match read_report(alloc, body) {
        Ok(report) => take(alloc, plane, report),
        Err(Stop::Refused(field)) => ControlRefusal::WrongShape(field).reply(alloc),
        Err(Stop::Memory) => Err(AllocError),
    }
}
