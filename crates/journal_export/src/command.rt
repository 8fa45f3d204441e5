//! The command.
ghost use Rattle.std.specs.Prelude.{◌≡◌, ◌≢◌, None};
ghost use Rattle.http_session.specs.Session.{state_of};
ghost use Rattle.api_server.specs.Ask.{WorldView};
ghost use Rattle.journal_text.specs.Texts.{journal_text};
ghost use Rattle.journal_export.specs.Exports.{RefusesStandard, set_up, AnswersAll, Writes, end_of, Ends, ExportLeaves};

use api_server::World;
use http_session::{ClockMode, SessionEnd, session};
use journal_text::export;
use serve_io::{Clock, Sink, Source, SureSink, write_whole};
use std::alloc::Global;
use step_scheduler::{Plane, standard_settings};

/// How an export ended.
#[derive(Clone, Copy, Debug, PartialEq, Eq)]
pub enum ExportEnd {
    /// The requests were answered to the end of the input or to one that closes, and the text was written.
    Done,
    /// The world refuses the standard settings. Nothing else happened.
    Usage,
    /// The input ended inside a request. Nothing was written.
    Cut,
    /// A request can't be read. Nothing was written.
    BadRequest,
    /// A read failed. Nothing was written.
    ReadFault,
    /// A write failed behind a part of the text.
    WriteFault,
    /// The input is too long. Nothing was written.
    TooLong,
    /// Out of memory. Nothing was written.
    Memory,
}

/// How the export of a session ends that isn't whole.
fn end_of(end: SessionEnd) -> ExportEnd
    ensures value { result ≡ end_of end }
    ensures reads { result ≢ ExportEnd.ReadFault → end ≢ SessionEnd.ReadFault }
    ensures usage { result ≢ ExportEnd.Usage }
{
    match end {
        SessionEnd::Clean | SessionEnd::Closed => ExportEnd::Done,
        SessionEnd::Cut => ExportEnd::Cut,
        SessionEnd::Bad(_) => ExportEnd::BadRequest,
        SessionEnd::ReadFault => ExportEnd::ReadFault,
        SessionEnd::WriteFault => ExportEnd::WriteFault,
        SessionEnd::TooLong => ExportEnd::TooLong,
        SessionEnd::Memory => ExportEnd::Memory,
    }
}

/// Writes a text.
fn send<K: Sink>(sink: &mut K, text: &[u8]) -> ExportEnd
    ensures writes { Writes (K.taken sink.old) (K.taken sink.new) (K.faults sink.old) (K.faults sink.new) text.now result }
    ensures usage { result ≢ ExportEnd.Usage }
    ensures reads { result ≢ ExportEnd.ReadFault }
    ensures calm_sink { result ≢ ExportEnd.WriteFault → K.faults sink.new ≡ K.faults sink.old }
{
    if write_whole(sink, text) {
        ExportEnd::Done
    } else {
        ExportEnd::WriteFault
    }
}

/// Writes the text of a plane.
fn write_text<K: Sink>(alloc: Global, plane: &Plane, sink: &mut K) -> ExportEnd
    ensures writes { Writes (K.taken sink.old) (K.taken sink.new) (K.faults sink.old) (K.faults sink.new)
        (journal_text plane.now.plane) result }
    ensures usage { result ≢ ExportEnd.Usage }
    ensures reads { result ≢ ExportEnd.ReadFault }
    ensures calm_sink { result ≢ ExportEnd.WriteFault → K.faults sink.new ≡ K.faults sink.old }
{
    match export(alloc, plane) {
        Ok(text) => send(sink, text.as_slice()),
        Err(_) => ExportEnd::Memory,
    }
}

/// Writes the text of a plane behind a session that is whole, and nothing behind another.
fn end_export<K: Sink>(alloc: Global, end: SessionEnd, plane: &Plane, sink: &mut K) -> ExportEnd
    ensures ends { Ends end (journal_text plane.now.plane)
        (K.taken sink.old) (K.taken sink.new) (K.faults sink.old) (K.faults sink.new) result }
    ensures usage { result ≢ ExportEnd.Usage }
    ensures reads { result ≢ ExportEnd.ReadFault → end ≢ SessionEnd.ReadFault }
    ensures calm_sink { result ≢ ExportEnd.WriteFault → K.faults sink.new ≡ K.faults sink.old }
{
    match end {
        SessionEnd::Clean => write_text(alloc, plane, sink),
        SessionEnd::Closed => write_text(alloc, plane, sink),
        _ => end_of(end),
    }
}

/// Answers the requests of a source over a world, for nobody.
fn answer_all<S: Source, C: Clock>(
    alloc: Global,
    world: &mut World,
    source: &mut S,
    clock: &mut C,
) -> SessionEnd
    ensures answers { (before : WorldView) → world.old ≡ set_up before → AnswersAll
        (state_of before (S.left source.old) (S.faults source.old) None 0 (C.moments clock.old))
        (state_of world.new (S.left source.new) (S.faults source.new) None 0 (C.moments clock.new))
        result }
    ensures calm { result ≢ SessionEnd.ReadFault → S.faults source.new ≡ S.faults source.old }
{
    let mut nobody = SureSink::new();
    let report = session(alloc, world, source, &mut nobody, clock, ClockMode::Leave);
    report.end
}

/// Answers the requests of a source over a world, with the standard settings and without automatic steps, and then writes the
/// journal of its plane as text. The replies go to nobody, and no request has a moment.
///
/// The text is written where the session came to the end of the input, or to a request that closes; else nothing is. `Usage` comes
/// exactly where the world refuses the standard settings. A read or a write that fails ends the export, and is not tried again.
pub fn export_requests<S: Source, K: Sink, C: Clock>(
    alloc: Global,
    world: &mut World,
    source: &mut S,
    sink: &mut K,
    clock: &mut C,
) -> ExportEnd
    ensures leaves { ExportLeaves
        (state_of world.old (S.left source.old) (S.faults source.old) (K.taken sink.old) (K.faults sink.old) (C.moments clock.old))
        (state_of world.new (S.left source.new) (S.faults source.new) (K.taken sink.new) (K.faults sink.new) (C.moments clock.new))
        result }
    ensures usage { result ≡ ExportEnd.Usage → RefusesStandard world.old }
    ensures calm { result ≢ ExportEnd.ReadFault → S.faults source.new ≡ S.faults source.old }
    ensures calm_sink { result ≢ ExportEnd.WriteFault → K.faults sink.new ≡ K.faults sink.old }
{
    let Ok(settings) = standard_settings(alloc) else {
        return ExportEnd::Memory;
    };
    if world.set_settings(settings).is_err() {
        return ExportEnd::Usage;
    }
    world.set_auto(0);
    let end = answer_all(alloc, world, source, clock);
    end_export(alloc, end, world.plane(), sink)
}
