//! The command `check`.
ghost use Rattle.std.specs.Prelude.{◌≡◌, ◌≢◌};
ghost use Rattle.manifest_check.specs.Checks.{ends_of};
ghost use Rattle.control_cli.specs.Ends.{status_of_check};
ghost use Rattle.control_cli.specs.Checks.{CheckRuns};

use crate::status::Status;
use manifest_check::{CheckEnd, check};
use serve_io::{Sink, Source};
use std::alloc::Global;

/// The status that stands for the end of a check.
fn status_of_check(end: CheckEnd) -> Status
    ensures value { result ≡ status_of_check end }
    ensures reads { result ≢ Status.ReadFault → end ≢ CheckEnd.ReadFault }
    ensures writes { result ≢ Status.WriteFault → end ≢ CheckEnd.WriteFault }
{
    match end {
        CheckEnd::Done => Status::Done,
        CheckEnd::Refused => Status::ManifestRefused,
        CheckEnd::ReadFault => Status::ReadFault,
        CheckEnd::WriteFault => Status::WriteFault,
        CheckEnd::Memory => Status::Memory,
    }
}

/// One manifest is read from the source, and written with its defaults, or its refusal.
pub(crate) fn check_manifest<S: Source, K: Sink>(
    alloc: Global,
    source: &mut S,
    sink: &mut K,
) -> Status
    ensures leaves { CheckRuns
        (ends_of (S.left source.old) (S.faults source.old) (K.taken sink.old) (K.faults sink.old))
        (ends_of (S.left source.new) (S.faults source.new) (K.taken sink.new) (K.faults sink.new))
        result }
    ensures usage { result ≢ Status.Usage }
    ensures calm { result ≢ Status.ReadFault → S.faults source.new ≡ S.faults source.old }
    ensures calm_sink { result ≢ Status.WriteFault → K.faults sink.new ≡ K.faults sink.old }
{
    status_of_check(check(alloc, source, sink))
}
