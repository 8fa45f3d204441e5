//! The two commands.
ghost use Rattle.std.specs.Prelude.{◌≡◌, ◌≢◌, ◌≤◌, IfOk, OnErr};
ghost use Rattle.manifest_intake.specs.Good.{is_good};
ghost use Rattle.control_rules.specs.Facts.{IsKept};
ghost use Rattle.step_scheduler.specs.Planes.{IsSafeThroughout, RemovesUnusedAlone};
ghost use Rattle.request_drill.specs.Generated.{generated};
ghost use Rattle.request_drill.specs.Outputs.{Writes, Drills, StopsDrill, DrillLeaves};

use crate::lines::{Figures, Lines};
use crate::stream::{MOST_SERVICES, generate, stream_of};
use crate::tally::Tally;
use api_server::World;
use control_calls::summary_of;
use serve_io::{Sink, write_whole};
use std::alloc::{AllocError, Global};

/// How a command that only writes ended.
#[derive(Clone, Copy, Debug, PartialEq, Eq)]
pub enum DrillEnd {
    /// All was written.
    Done,
    /// A write failed behind a part of what was to be written.
    WriteFault,
    /// Out of memory. Nothing was written.
    Memory,
}

/// Writes a text.
fn send<K: Sink>(sink: &mut K, text: &[u8]) -> DrillEnd
    ensures writes { Writes (K.taken sink.old) (K.taken sink.new) (K.faults sink.old) (K.faults sink.new) text.now result }
    ensures some { result ≢ DrillEnd.Memory }
    ensures later { K.faults sink.old ≤ K.faults sink.new }
    ensures calm { result ≢ DrillEnd.WriteFault → K.faults sink.new ≡ K.faults sink.old }
{
    if write_whole(sink, text) {
        DrillEnd::Done
    } else {
        DrillEnd::WriteFault
    }
}

/// Writes the stream that a number makes.
///
/// A write that fails ends it, and isn't tried again.
pub fn write_stream<K: Sink>(alloc: Global, count: u64, sink: &mut K) -> DrillEnd
    ensures leaves { Writes (K.taken sink.old) (K.taken sink.new) (K.faults sink.old) (K.faults sink.new) (generated count) result }
    ensures later { K.faults sink.old ≤ K.faults sink.new }
    ensures calm { result ≢ DrillEnd.WriteFault → K.faults sink.new ≡ K.faults sink.old }
{
    match generate(alloc, count) {
        Ok(stream) => send(sink, stream.as_slice()),
        Err(_) => DrillEnd::Memory,
    }
}

/// Runs the stream that a number makes over a world without automatic steps, and makes the lines that tell of the run.
fn lines_of_run(alloc: Global, world: &mut World, count: u64) -> Result<Lines, AllocError>
    requires { count ≤ MOST_SERVICES }
    ensures ok { IfOk result (Drills count world.old world.new) }
    ensures err { OnErr result (StopsDrill count world.old world.new) }
{
    let mut lines = Lines::new(alloc)?;
    let stream = stream_of(alloc, count)?;
    let requests = stream.requests as u64;
    let turns = world.plane().turns();
    let looks = world.plane().looks();
    world.set_auto(0);
    let mut tally = Tally::new(world);
    let answered = tally.run(alloc, stream.bytes)?;
    let refused = tally.refused;
    let plane = world.plane();
    let summary = summary_of(plane);
    lines.put(&Figures {
        requests,
        answered,
        refused,
        journal: summary.journal,
        tables: summary.tables,
        turns: plane.turns().saturating_sub(turns),
        looks: plane.looks().saturating_sub(looks),
    });
    Ok(lines)
}

/// A drill: it sets the automatic steps of a world to 0, runs the stream that a number makes over it, and writes seven lines. They
/// tell how many requests the stream has, how many were answered and how many of these refused, how long the journal is and how
/// many Tables stand behind them, and how many turns and looks were made in this call.
///
/// A write that fails ends it, and isn't tried again; the world is then as the run left it.
pub fn drill<K: Sink>(alloc: Global, world: &mut World, count: u64, sink: &mut K) -> DrillEnd
    requires { count ≤ MOST_SERVICES }
    ensures leaves { DrillLeaves count world.old world.new
        (K.taken sink.old) (K.taken sink.new) (K.faults sink.old) (K.faults sink.new) result }
    ensures kept { IsKept is_good world.old.plane → IsKept is_good world.new.plane }
    ensures safe { IsKept is_good world.old.plane → IsSafeThroughout world.new.plane.journal }
    ensures unused { IsKept is_good world.old.plane → RemovesUnusedAlone world.new.plane.journal }
    ensures later { K.faults sink.old ≤ K.faults sink.new }
    ensures calm { result ≢ DrillEnd.WriteFault → K.faults sink.new ≡ K.faults sink.old }
{
    match lines_of_run(alloc, world, count) {
        Ok(lines) => send(sink, lines.bytes()),
        Err(_) => DrillEnd::Memory,
    }
}
