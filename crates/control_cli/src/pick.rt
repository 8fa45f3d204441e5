//! The command `pick`.
ghost use Rattle.std.specs.Prelude.{◌≡◌, ◌≢◌, ◌+◌, ◌<◌, ◌^◌};
ghost use Rattle.gateway_command.specs.Leaves.{ends_of};
ghost use Rattle.control_cli.specs.Ends.{status_of_pick};
ghost use Rattle.control_cli.specs.Picks.{PickRuns};

use crate::status::Status;
use command_words::Picking;
use gateway_command::{PickEnd, pick};
use serve_io::{Sink, Source};
use std::alloc::Global;

/// The status that stands for how picking ended.
fn status_of_pick(end: PickEnd) -> Status
    ensures value { result ≡ status_of_pick end }
    ensures reads { result ≢ Status.ReadFault → end ≢ PickEnd.ReadFault }
    ensures writes { result ≢ Status.WriteFault → end ≢ PickEnd.WriteFault }
    ensures usage { result ≢ Status.Usage }
{
    match end {
        PickEnd::Done => Status::Done,
        PickEnd::Refused => Status::PollRefused,
        PickEnd::ReadFault => Status::ReadFault,
        PickEnd::WriteFault => Status::WriteFault,
        PickEnd::TooLong => Status::TooLong,
        PickEnd::Memory => Status::Memory,
    }
}

/// The polls of the source are followed, and what each number picks is written.
pub(crate) fn pick_numbers<S: Source, K: Sink>(
    alloc: Global,
    picking: Picking,
    source: &mut S,
    sink: &mut K,
) -> Status
    requires { picking.first + picking.count < 2 ^ 64 }
    ensures leaves { PickRuns picking
        (ends_of (S.left source.old) (S.faults source.old) (K.taken sink.old) (K.faults sink.old))
        (ends_of (S.left source.new) (S.faults source.new) (K.taken sink.new) (K.faults sink.new))
        result }
    ensures usage { result ≢ Status.Usage }
    ensures calm { result ≢ Status.ReadFault → S.faults source.new ≡ S.faults source.old }
    ensures calm_sink { result ≢ Status.WriteFault → K.faults sink.new ≡ K.faults sink.old }
{
    status_of_pick(pick(
        alloc,
        &picking.host,
        picking.first,
        picking.count,
        source,
        sink,
    ))
}
