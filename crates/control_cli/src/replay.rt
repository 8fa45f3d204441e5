//! The command `replay`.
ghost use Rattle.std.specs.Prelude.{◌≡◌, ◌≢◌};
ghost use Rattle.http_session.specs.Session.{state_of};
ghost use Rattle.control_cli.specs.Ends.{status_of};
ghost use Rattle.control_cli.specs.Runs.{RefusesSettings, ReplayRuns, IsComplete};

use crate::status::Status;
use api_server::World;
use command_words::Options;
use http_session::{ClockMode, SessionEnd, session};
use serve_io::{Clock, Sink, Source};
use std::alloc::Global;

/// The status that stands for the end of a session.
fn status_of(end: SessionEnd) -> Status
    ensures value { result ≡ status_of end }
    ensures reads { result ≢ Status.ReadFault → end ≢ SessionEnd.ReadFault }
    ensures writes { result ≢ Status.WriteFault → end ≢ SessionEnd.WriteFault }
{
    match end {
        SessionEnd::Clean | SessionEnd::Closed => Status::Done,
        SessionEnd::Cut => Status::Cut,
        SessionEnd::Bad(_) => Status::BadRequest,
        SessionEnd::ReadFault => Status::ReadFault,
        SessionEnd::WriteFault => Status::WriteFault,
        SessionEnd::TooLong => Status::TooLong,
        SessionEnd::Memory => Status::Memory,
    }
}

/// One session over the source, in which no request has a moment, on the world with the settings and the automatic steps of
/// the words. `Usage` comes exactly where the world refuses these settings, and then nothing is read or written.
#[tactic(auto, using(crate::proofs::Starts::usage_refuses))]
pub(crate) fn replay<S: Source, K: Sink, C: Clock>(
    alloc: Global,
    options: Options,
    world: &mut World,
    source: &mut S,
    sink: &mut K,
    clock: &mut C,
) -> Status
    ensures runs { ReplayRuns options
        (state_of world.old (S.left source.old) (S.faults source.old) (K.taken sink.old) (K.faults sink.old) (C.moments clock.old))
        (state_of world.new (S.left source.new) (S.faults source.new) (K.taken sink.new) (K.faults sink.new) (C.moments clock.new))
        result }
    ensures complete { ¬ (RefusesSettings options world.old) → IsComplete
        (state_of world.old (S.left source.old) (S.faults source.old) (K.taken sink.old) (K.faults sink.old) (C.moments clock.old))
        (state_of world.new (S.left source.new) (S.faults source.new) (K.taken sink.new) (K.faults sink.new) (C.moments clock.new))
        result }
    ensures usage { result ≡ Status.Usage → RefusesSettings options world.old }
    ensures calm { result ≢ Status.ReadFault → S.faults source.new ≡ S.faults source.old }
    ensures calm_sink { result ≢ Status.WriteFault → K.faults sink.new ≡ K.faults sink.old }
{
    if world.set_settings(options.settings).is_err() {
        return Status::Usage;
    }
    world.set_auto(options.auto);
    let report = session(alloc, world, source, sink, clock, ClockMode::Leave);
    status_of(report.end)
}
