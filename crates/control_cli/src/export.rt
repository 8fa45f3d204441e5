//! The command `export`.
ghost use Rattle.std.specs.Prelude.{◌≡◌, ◌≢◌};
ghost use Rattle.http_session.specs.Session.{state_of};
ghost use Rattle.journal_export.specs.Exports.{RefusesStandard};
ghost use Rattle.control_cli.specs.Ends.{status_of_export};
ghost use Rattle.control_cli.specs.Exports.{ExportRuns};

use crate::status::Status;
use api_server::World;
use journal_export::{ExportEnd, export_requests};
use serve_io::{Clock, Sink, Source};
use std::alloc::Global;

/// The status that stands for how an export ended.
fn status_of_export(end: ExportEnd) -> Status
    ensures value { result ≡ status_of_export end }
    ensures reads { result ≢ Status.ReadFault → end ≢ ExportEnd.ReadFault }
    ensures writes { result ≢ Status.WriteFault → end ≢ ExportEnd.WriteFault }
    ensures usage { result ≡ Status.Usage → end ≡ ExportEnd.Usage }
{
    match end {
        ExportEnd::Done => Status::Done,
        ExportEnd::Usage => Status::Usage,
        ExportEnd::Cut => Status::Cut,
        ExportEnd::BadRequest => Status::BadRequest,
        ExportEnd::ReadFault => Status::ReadFault,
        ExportEnd::WriteFault => Status::WriteFault,
        ExportEnd::TooLong => Status::TooLong,
        ExportEnd::Memory => Status::Memory,
    }
}

/// The requests of the source are answered for nobody, and then the journal is written as text.
pub(crate) fn export_journal<S: Source, K: Sink, C: Clock>(
    alloc: Global,
    world: &mut World,
    source: &mut S,
    sink: &mut K,
    clock: &mut C,
) -> Status
    ensures leaves { ExportRuns
        (state_of world.old (S.left source.old) (S.faults source.old) (K.taken sink.old) (K.faults sink.old) (C.moments clock.old))
        (state_of world.new (S.left source.new) (S.faults source.new) (K.taken sink.new) (K.faults sink.new) (C.moments clock.new))
        result }
    ensures usage { result ≡ Status.Usage → RefusesStandard world.old }
    ensures calm { result ≢ Status.ReadFault → S.faults source.new ≡ S.faults source.old }
    ensures calm_sink { result ≢ Status.WriteFault → K.faults sink.new ≡ K.faults sink.old }
{
    status_of_export(export_requests(alloc, world, source, sink, clock))
}
