//! The check.
ghost use Rattle.std.specs.Prelude.{◌≡◌, ◌≢◌, ℕ, ◌≤◌, List, Option, length, IfOk};
ghost use Rattle.std.specs.Io.KnownBytes.{Consumes};
ghost use Rattle.http_session.specs.Session.{IsAll};
ghost use Rattle.manifest_check.specs.Checks.{ends_of, Leaves, AreLater, IsComplete, Sent, Answers};

use crate::input::{Reading, new_room, read_into};
use crate::lines::{long_line, manifest_line, refusal_line};
use answers::Stop;
use manifest_intake::check_body;
use serve_io::{Sink, Source, write_whole};
use std::alloc::{AllocError, Global};

/// How a check ended.
#[derive(Clone, Copy, Debug, PartialEq, Eq)]
pub enum CheckEnd {
    /// The manifest is good, and was shown with its defaults.
    Done,
    /// The manifest is refused, or the input is too long, and the refusal was written.
    Refused,
    /// A read failed. Nothing was written.
    ReadFault,
    /// A write failed behind a part of the line.
    WriteFault,
    /// Out of memory. Nothing was written.
    Memory,
}

/// Writes a line. Where all of it is written, the check ends so.
fn send<K: Sink>(sink: &mut K, line: &[u8], whole: CheckEnd) -> CheckEnd
    ensures sent { Sent (K.taken sink.old) (K.taken sink.new) (K.faults sink.old) (K.faults sink.new) line.now whole result }
    ensures later { K.faults sink.old ≤ K.faults sink.new }
    ensures calm { result ≢ CheckEnd.WriteFault → K.faults sink.new ≡ K.faults sink.old }
{
    if write_whole(sink, line) {
        whole
    } else {
        CheckEnd::WriteFault
    }
}

/// Writes a line that was made. Out of memory for it, nothing is written.
fn send_made<K: Sink>(sink: &mut K, line: Result<Vec<u8>, AllocError>, whole: CheckEnd) -> CheckEnd
    ensures sent { (due : List ℕ) → IfOk line (λ made. made.items ≡ due)
        → Answers (K.taken sink.old) (K.taken sink.new) (K.faults sink.old) (K.faults sink.new) due whole result }
    ensures later { K.faults sink.old ≤ K.faults sink.new }
    ensures calm { result ≢ CheckEnd.WriteFault → K.faults sink.new ≡ K.faults sink.old }
{
    match line {
        Ok(line) => send(sink, line.as_slice(), whole),
        Err(_) => CheckEnd::Memory,
    }
}

/// Writes what comes of a whole input.
fn answer<K: Sink>(alloc: Global, bytes: &[u8], sink: &mut K) -> CheckEnd
    ensures leaves { (left rest : Option (List ℕ)) (failed now : ℕ)
        → Consumes left rest bytes.now → IsAll left bytes.now → length bytes.now ≤ 65536
        → Leaves (ends_of left failed (K.taken sink.old) (K.faults sink.old)) (ends_of rest now (K.taken sink.new) (K.faults sink.new)) result }
    ensures later { K.faults sink.old ≤ K.faults sink.new }
    ensures calm { result ≢ CheckEnd.WriteFault → K.faults sink.new ≡ K.faults sink.old }
{
    match check_body(alloc, bytes) {
        Ok(manifest) => send_made(sink, manifest_line(alloc, &manifest), CheckEnd::Done),
        Err(Stop::Refused(refusal)) => {
            send_made(sink, refusal_line(alloc, refusal), CheckEnd::Refused)
        }
        Err(Stop::Memory) => CheckEnd::Memory,
    }
}

/// The check, over room for the bytes that are read.
fn check_in<S: Source, K: Sink>(
    alloc: Global,
    room: &mut [u8],
    source: &mut S,
    sink: &mut K,
) -> CheckEnd
    requires { length room.old ≡ 65537 }
    ensures leaves { Leaves
        (ends_of (S.left source.old) (S.faults source.old) (K.taken sink.old) (K.faults sink.old))
        (ends_of (S.left source.new) (S.faults source.new) (K.taken sink.new) (K.faults sink.new))
        result }
    ensures later { AreLater
        (ends_of (S.left source.old) (S.faults source.old) (K.taken sink.old) (K.faults sink.old))
        (ends_of (S.left source.new) (S.faults source.new) (K.taken sink.new) (K.faults sink.new)) }
    ensures calm { result ≢ CheckEnd.WriteFault → K.faults sink.new ≡ K.faults sink.old }
    ensures calm_source { result ≢ CheckEnd.ReadFault → S.faults source.new ≡ S.faults source.old }
{
    match read_into(room, source) {
        Reading::End(count) => answer(alloc, &room[..count], sink),
        Reading::Full => send(sink, long_line(), CheckEnd::Refused),
        Reading::Failed => CheckEnd::ReadFault,
    }
}

/// Reads one manifest from the source, and writes one line to the sink: the manifest with its defaults, or why it is
/// refused.
///
/// The input is read to its end. One of more than 65,536 bytes is refused behind the byte that is too many. A read or a write that
/// fails ends the check, and is not tried again.
#[tactic(auto, using(crate::proofs::Complete::complete))]
pub fn check<S: Source, K: Sink>(alloc: Global, source: &mut S, sink: &mut K) -> CheckEnd
    ensures leaves { Leaves
        (ends_of (S.left source.old) (S.faults source.old) (K.taken sink.old) (K.faults sink.old))
        (ends_of (S.left source.new) (S.faults source.new) (K.taken sink.new) (K.faults sink.new))
        result }
    ensures later { AreLater
        (ends_of (S.left source.old) (S.faults source.old) (K.taken sink.old) (K.faults sink.old))
        (ends_of (S.left source.new) (S.faults source.new) (K.taken sink.new) (K.faults sink.new)) }
    ensures calm { result ≢ CheckEnd.WriteFault → K.faults sink.new ≡ K.faults sink.old }
    ensures calm_source { result ≢ CheckEnd.ReadFault → S.faults source.new ≡ S.faults source.old }
    ensures complete { IsComplete
        (ends_of (S.left source.old) (S.faults source.old) (K.taken sink.old) (K.faults sink.old))
        (ends_of (S.left source.new) (S.faults source.new) (K.taken sink.new) (K.faults sink.new))
        result }
{
    match new_room(alloc) {
        Ok(mut room) => check_in(alloc, room.as_mut_slice(), source, sink),
        Err(_) => CheckEnd::Memory,
    }
}
