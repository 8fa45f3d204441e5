//! Serving a gate.
ghost use Rattle.std.specs.Prelude.{◌≡◌, ◌≢◌, ◌<◌, ◌≤◌, length, true, Some};
ghost use Rattle.manifest_intake.specs.Good.{is_good};
ghost use Rattle.control_rules.specs.Facts.{IsKept};
ghost use Rattle.connection_loop.specs.Sessions.{timed};
ghost use Rattle.connection_loop.specs.Serves.{serving, line_sink, ServeLeaves, IsComplete, Runs};
ghost use Rattle.connection_loop.specs.Turns.{TakesNext, TellsOf, Turns};

use crate::lines::LineRoom;
use crate::options::ServeOptions;
use api_server::World;
use http_session::{ClockMode, SessionEnd, SessionReport, session};
use serve_io::{Clock, Gate, Listened, Next, Sink, write_whole};
use std::alloc::Global;

/// How the serving of a gate ended.
#[derive(Clone, Copy, Debug, PartialEq, Eq)]
pub enum ServeEnd {
    /// As many connections were served as were asked for, or no further one is to come.
    Done,
    /// The world refuses the settings. Nothing else happened.
    Usage,
    /// The gate failed, at listening or at the next connection.
    GateFault,
    /// A write of a line failed.
    WriteFault,
    /// Out of memory, at the start or in a session.
    Memory,
}

/// What came of the next connection.
#[derive(Clone, Copy)]
pub(crate) enum Taken {
    /// It was served and handed back.
    Served(SessionReport),
    /// None is to come.
    Closed,
    /// The gate failed.
    Failed,
}

/// Takes the next connection, serves it and hands it back, however its session ended.
fn serve_next<C: Clock, G: Gate>(
    alloc: Global,
    world: &mut World,
    clock: &mut C,
    gate: &mut G,
) -> Taken
    requires { G.listens gate.old ≡ true }
    ensures takes { TakesNext
        (serving (timed world.old (C.moments clock.old)) (G.coming gate.old) (G.back gate.old) (G.listening_at gate.old) (G.listens gate.old) (G.faults gate.old))
        (serving (timed world.new (C.moments clock.new)) (G.coming gate.new) (G.back gate.new) (G.listening_at gate.new) (G.listens gate.new) (G.faults gate.new))
        result }
    ensures listens { G.listens gate.new ≡ true }
    ensures address { G.listening_at gate.new ≡ G.listening_at gate.old }
{
    match gate.next() {
        Next::Connection {
            mut input,
            mut output,
        } => {
            let report = session(alloc, world, &mut input, &mut output, clock, ClockMode::Ask);
            gate.done(input, output);
            Taken::Served(report)
        }
        Next::Closed => Taken::Closed,
        Next::Failed => Taken::Failed,
    }
}

/// Writes the line of a connection that was served, unless its session ran out of memory. None where it was written whole, and else
/// how serving ends.
fn tell<K: Sink>(
    line: &mut LineRoom,
    number: u64,
    report: SessionReport,
    sink: &mut K,
) -> Option<ServeEnd>
    ensures tells { TellsOf number report (line_sink (K.taken sink.old) (K.faults sink.old)) (line_sink (K.taken sink.new) (K.faults sink.new)) result }
    ensures calm { result ≢ Some ServeEnd.WriteFault → K.faults sink.new ≡ K.faults sink.old }
{
    if report.end == SessionEnd::Memory {
        return Some(ServeEnd::Memory);
    }
    line.put_line(number, report);
    if write_whole(sink, line.bytes()) {
        None
    } else {
        Some(ServeEnd::WriteFault)
    }
}

/// Serves the next connection and tells of it. None where that was whole, and else how serving ends.
fn turn<K: Sink, C: Clock, G: Gate>(
    alloc: Global,
    number: u64,
    line: &mut LineRoom,
    world: &mut World,
    sink: &mut K,
    clock: &mut C,
    gate: &mut G,
) -> Option<ServeEnd>
    requires { G.listens gate.old ≡ true }
    ensures turns { Turns number
        (serving (timed world.old (C.moments clock.old)) (G.coming gate.old) (G.back gate.old) (G.listening_at gate.old) (G.listens gate.old) (G.faults gate.old))
        (serving (timed world.new (C.moments clock.new)) (G.coming gate.new) (G.back gate.new) (G.listening_at gate.new) (G.listens gate.new) (G.faults gate.new))
        (line_sink (K.taken sink.old) (K.faults sink.old)) (line_sink (K.taken sink.new) (K.faults sink.new))
        result }
    ensures listens { G.listens gate.new ≡ true }
    ensures address { G.listening_at gate.new ≡ G.listening_at gate.old }
    ensures calm { result ≢ Some ServeEnd.WriteFault → K.faults sink.new ≡ K.faults sink.old }
{
    match serve_next(alloc, world, clock, gate) {
        Taken::Served(report) => tell(line, number, report, sink),
        Taken::Closed => Some(ServeEnd::Done),
        Taken::Failed => Some(ServeEnd::GateFault),
    }
}

/// Serves the connections of a gate that listens, at most so many.
fn serve_all<K: Sink, C: Clock, G: Gate>(
    alloc: Global,
    sessions: u64,
    line: &mut LineRoom,
    world: &mut World,
    sink: &mut K,
    clock: &mut C,
    gate: &mut G,
) -> ServeEnd
    requires { G.listens gate.old ≡ true }
    ensures runs { Runs sessions
        (serving (timed world.old (C.moments clock.old)) (G.coming gate.old) (G.back gate.old) (G.listening_at gate.old) (G.listens gate.old) (G.faults gate.old))
        (serving (timed world.new (C.moments clock.new)) (G.coming gate.new) (G.back gate.new) (G.listening_at gate.new) (G.listens gate.new) (G.faults gate.new))
        (line_sink (K.taken sink.old) (K.faults sink.old)) (line_sink (K.taken sink.new) (K.faults sink.new))
        result }
    ensures listens { G.listens gate.new ≡ true }
    ensures address { G.listening_at gate.new ≡ G.listening_at gate.old }
    ensures calm { result ≢ ServeEnd.WriteFault → K.faults sink.new ≡ K.faults sink.old }
{
    for served in 0..sessions {
        if let Some(end) = turn(alloc, served + 1, line, world, sink, clock, gate) {
            return end;
        }
    }
    ServeEnd::Done
}

/// Serves a gate over a world, as `serve` says.
fn serve_world<K: Sink, C: Clock, G: Gate>(
    alloc: Global,
    options: ServeOptions,
    world: &mut World,
    sink: &mut K,
    clock: &mut C,
    gate: &mut G,
) -> ServeEnd
    requires some { 0 < length options.address }
    requires short { length options.address ≤ 255 }
    ensures leaves { ServeLeaves options
        (serving (timed world.old (C.moments clock.old)) (G.coming gate.old) (G.back gate.old) (G.listening_at gate.old) (G.listens gate.old) (G.faults gate.old))
        (serving (timed world.new (C.moments clock.new)) (G.coming gate.new) (G.back gate.new) (G.listening_at gate.new) (G.listens gate.new) (G.faults gate.new))
        (line_sink (K.taken sink.old) (K.faults sink.old)) (line_sink (K.taken sink.new) (K.faults sink.new))
        result }
    ensures calm { result ≢ ServeEnd.WriteFault → K.faults sink.new ≡ K.faults sink.old }
{
    let Ok(mut line) = LineRoom::new(alloc) else {
        return ServeEnd::Memory;
    };
    if world.set_settings(options.settings).is_err() {
        return ServeEnd::Usage;
    }
    world.set_auto(options.auto);
    match gate.listen(&options.address) {
        Listened::Ready => serve_all(alloc, options.sessions, &mut line, world, sink, clock, gate),
        Listened::Failed => ServeEnd::GateFault,
    }
}

// What a plane keeps is a fact of its type, which it tells with its store. A session doesn't say of the moment of a request for
// which memory ran out that a clock can show it, and so the plane is asked.
fn is_kept(world: &World)
    ensures { IsKept is_good world.now.plane }
{
    let _store = world.plane().store();
}

/// Serves a gate over a world, with the settings and the automatic steps of the options: it listens, and then serves one
/// connection after another, each by a session whose requests have the clock's moments. A line on the sink tells of each.
///
/// A connection whose session ended badly is handed back as any other, and the next one is served. Serving ends after the
/// given number of connections, where no further one is to come, where the gate or the sink of the lines failed, and where
/// memory ran out. `Usage` comes exactly where the world refuses the settings, and then nothing else happens.
#[tactic(auto, using(crate::proofs::Starts::complete))]
pub fn serve<K: Sink, C: Clock, G: Gate>(
    alloc: Global,
    options: ServeOptions,
    world: &mut World,
    sink: &mut K,
    clock: &mut C,
    gate: &mut G,
) -> ServeEnd
    requires some { 0 < length options.address }
    requires short { length options.address ≤ 255 }
    ensures leaves { ServeLeaves options
        (serving (timed world.old (C.moments clock.old)) (G.coming gate.old) (G.back gate.old) (G.listening_at gate.old) (G.listens gate.old) (G.faults gate.old))
        (serving (timed world.new (C.moments clock.new)) (G.coming gate.new) (G.back gate.new) (G.listening_at gate.new) (G.listens gate.new) (G.faults gate.new))
        (line_sink (K.taken sink.old) (K.faults sink.old)) (line_sink (K.taken sink.new) (K.faults sink.new))
        result }
    ensures complete { IsComplete options
        (serving (timed world.old (C.moments clock.old)) (G.coming gate.old) (G.back gate.old) (G.listening_at gate.old) (G.listens gate.old) (G.faults gate.old))
        (serving (timed world.new (C.moments clock.new)) (G.coming gate.new) (G.back gate.new) (G.listening_at gate.new) (G.listens gate.new) (G.faults gate.new))
        (line_sink (K.taken sink.old) (K.faults sink.old)) (line_sink (K.taken sink.new) (K.faults sink.new))
        result }
    ensures kept { IsKept is_good world.new.plane }
    ensures calm { result ≢ ServeEnd.WriteFault → K.faults sink.new ≡ K.faults sink.old }
{
    let end = serve_world(alloc, options, world, sink, clock, gate);
    is_kept(world);
    end
}
