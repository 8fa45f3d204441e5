//! The commands `gen` and `drill`.
ghost use Rattle.std.specs.Prelude.{◌≡◌, ◌≢◌, ◌≤◌};
ghost use Rattle.control_cli.specs.Ends.{status_of_drill};
ghost use Rattle.control_cli.specs.Drills.{DrillRuns, StreamRuns};

use crate::status::Status;
use api_server::World;
use request_drill::{DrillEnd, drill, write_stream};
use serve_io::Sink;
use std::alloc::Global;

/// The status that stands for how such a command ended.
fn status_of_drill(end: DrillEnd) -> Status
    ensures value { result ≡ status_of_drill end }
    ensures writes { result ≢ Status.WriteFault → end ≢ DrillEnd.WriteFault }
    ensures usage { result ≢ Status.Usage }
{
    match end {
        DrillEnd::Done => Status::Done,
        DrillEnd::WriteFault => Status::WriteFault,
        DrillEnd::Memory => Status::Memory,
    }
}

/// The stream that the number makes is written.
pub(crate) fn generate<K: Sink>(alloc: Global, count: u64, sink: &mut K) -> Status
    ensures leaves { StreamRuns count (K.taken sink.old) (K.taken sink.new) (K.faults sink.old) (K.faults sink.new) result }
    ensures usage { result ≢ Status.Usage }
    ensures calm_sink { result ≢ Status.WriteFault → K.faults sink.new ≡ K.faults sink.old }
{
    status_of_drill(write_stream(alloc, count, sink))
}

/// The stream that the number makes is run over the world, and what that came to is written.
pub(crate) fn run_drill<K: Sink>(
    alloc: Global,
    count: u64,
    world: &mut World,
    sink: &mut K,
) -> Status
    requires { count ≤ 500 }
    ensures leaves { DrillRuns count world.old world.new (K.taken sink.old) (K.taken sink.new) (K.faults sink.old) (K.faults sink.new) result }
    ensures usage { result ≢ Status.Usage }
    ensures calm_sink { result ≢ Status.WriteFault → K.faults sink.new ≡ K.faults sink.old }
{
    status_of_drill(drill(alloc, world, count, sink))
}
