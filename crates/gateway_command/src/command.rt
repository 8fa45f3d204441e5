//! The command.
ghost use Rattle.std.specs.Prelude.{◌≡◌, ◌≢◌, ℕ, ◌+◌, ◌≤◌, ◌<◌, ◌^◌, IsTrue};
ghost use Rattle.std.specs.List.{list_any};
ghost use Rattle.gateway_pick.specs.Picks.{has_host, pick_of, PicksEvenly};
ghost use Rattle.gateway_command.specs.Texts.{picks_text};
ghost use Rattle.gateway_command.specs.Leaves.{ends_of, end_of, Leaves, IsComplete, Sent};

use crate::input::{Unread, follow_all};
use crate::text::picks_text;
use gateway_pick::Gateway;
use json_tree::Text;
use serve_io::{Sink, Source, write_whole};
use std::alloc::Global;

/// How a command ended.
#[derive(Clone, Copy, Debug, PartialEq, Eq)]
pub enum PickEnd {
    /// All polls were followed, and the lines were written.
    Done,
    /// A poll isn't followed, or its line is too long. Nothing was written.
    Refused,
    /// A read failed. Nothing was written.
    ReadFault,
    /// A write failed behind a part of the lines.
    WriteFault,
    /// The input is too long. Nothing was written.
    TooLong,
    /// Out of memory. Nothing was written.
    Memory,
}

/// The end that stands for why polls aren't followed.
fn end_of(unread: Unread) -> PickEnd
    ensures { result ≡ end_of unread }
{
    match unread {
        Unread::Refused => PickEnd::Refused,
        Unread::Fault => PickEnd::ReadFault,
        Unread::TooLong => PickEnd::TooLong,
        Unread::Memory => PickEnd::Memory,
    }
}

/// Writes which row each number picks.
fn write_picks<K: Sink>(
    alloc: Global,
    gateway: &Gateway,
    host: &Text,
    first: u64,
    count: u64,
    sink: &mut K,
) -> PickEnd
    requires { first + count < 2 ^ 64 }
    ensures sent { Sent (K.taken sink.old) (K.taken sink.new) (K.faults sink.old) (K.faults sink.new)
        (picks_text (pick_of gateway.now.tables host.now) first count) result }
    ensures evenly { IsTrue (list_any (has_host host.now) gateway.now.tables)
        → (number : ℕ) → PicksEvenly gateway.now.tables host.now number }
    ensures later { K.faults sink.old ≤ K.faults sink.new }
    ensures calm { result ≢ PickEnd.WriteFault → K.faults sink.new ≡ K.faults sink.old }
{
    let rows = gateway.rows_for(host.bytes());
    match picks_text(alloc, rows, host, first, count) {
        Ok(text) => {
            if write_whole(sink, text.as_slice()) {
                PickEnd::Done
            } else {
                PickEnd::WriteFault
            }
        }
        Err(_) => PickEnd::Memory,
    }
}

/// Follows the polls of Tables that the source gives, one a line, in their order, and then writes for each of `count` numbers from
/// `first` on the Revision that it picks for the host, and the Revision's uid; or a dash, where no row has the host.
///
/// The input is read to its end. Empty lines are passed over. A poll that isn't followed, a line of more than 8,388,608 bytes, a read that fails and
/// an input of 4,294,967,295 bytes or more end the command, and then nothing is written.
pub fn pick<S: Source, K: Sink>(
    alloc: Global,
    host: &Text,
    first: u64,
    count: u64,
    source: &mut S,
    sink: &mut K,
) -> PickEnd
    requires { first + count < 2 ^ 64 }
    ensures leaves { Leaves host.now first count
        (ends_of (S.left source.old) (S.faults source.old) (K.taken sink.old) (K.faults sink.old))
        (ends_of (S.left source.new) (S.faults source.new) (K.taken sink.new) (K.faults sink.new))
        result }
    ensures complete { IsComplete
        (ends_of (S.left source.old) (S.faults source.old) (K.taken sink.old) (K.faults sink.old))
        (ends_of (S.left source.new) (S.faults source.new) (K.taken sink.new) (K.faults sink.new))
        result }
    ensures calm { result ≢ PickEnd.ReadFault → S.faults source.new ≡ S.faults source.old }
    ensures calm_sink { result ≢ PickEnd.WriteFault → K.faults sink.new ≡ K.faults sink.old }
{
    match follow_all(alloc, source) {
        Ok(gateway) => write_picks(alloc, &gateway, host, first, count, sink),
        Err(unread) => end_of(unread),
    }
}
