//! What stands at the front of some bytes.
ghost use Rattle.std.specs.Prelude.{◌≡◌, ◌≤◌, ◌<◌, ◌==◌, length, take, drop, slice_range, count_by};
ghost use Rattle.httparse.specs.Ascii.{line_feed};
ghost use Rattle.http_session.specs.Stream.{IsFront, IsFrontOfBlock, without_block};
ghost use Rattle.http_session.specs.Front.{front_of, IsNextIn, OnUnfinished, Awaits, AwaitsBody};

use crate::block::{blank_end, find_head};
use crate::head::{Head, read_head};
use crate::report::HeadFault;
use httparse::spans::Span;

/// Among so many bytes a head has to end.
const MOST_HEAD: usize = 8192;

/// The most lines of a head: its first, 64 fields, and the empty one.
const MOST_LINES: usize = 66;

/// A whole request: where its head is, what the head says, and where its body ends.
#[derive(Clone, Copy)]
pub(crate) struct Found {
    pub head: Span,
    pub read: Head,
    pub end: usize,
}

/// What stands at the front.
#[derive(Clone, Copy)]
pub(crate) enum Next {
    /// A whole request.
    Whole(Found),
    /// A head that is refused.
    Bad(HeadFault),
    /// Nothing but empty lines.
    Clean,
    /// A part of a head.
    Cut,
    /// A head, and a part of its body. The request is whole once there are so many bytes.
    Awaits(usize),
}

/// The bytes among which a head has to end.
fn head_room(held: &[u8]) -> &[u8]
    ensures bytes { result.now ≡ take MOST_HEAD held.now }
    ensures within { length result.now ≤ length held.now }
    ensures short { length result.now ≤ MOST_HEAD }
{
    if held.len() > MOST_HEAD {
        &held[..MOST_HEAD]
    } else {
        held
    }
}

/// Where no block ends in that room.
fn no_block(held: &[u8]) -> Next
    ensures front { front_of held.now result ≡ without_block held.now }
    ensures within { IsNextIn held.now result }
    ensures room { OnUnfinished result (length held.now < 73728) }
    ensures awaits { Awaits held.now result }
{
    if held.len() >= MOST_HEAD {
        Next::Bad(HeadFault::HeadTooLarge)
    } else if blank_end(held) == held.len() {
        Next::Clean
    } else {
        Next::Cut
    }
}

fn count_lines(head: &[u8]) -> usize
    ensures { result ≡ count_by (λ b. b == line_feed) head.now }
{
    head.iter().filter(|b| **b == b'\n').count()
}

/// With a block whose head is there.
fn block(held: &[u8], start: usize, end: usize) -> Next
    requires ordered { start < end }
    requires in_range { end ≤ length held.now }
    requires early { end ≤ MOST_HEAD }
    ensures front { IsFrontOfBlock (slice_range held.now start end) (drop end held.now) (front_of held.now result) }
    ensures within { IsNextIn held.now result }
    ensures room { OnUnfinished result (length held.now < 73728) }
    ensures awaits { AwaitsBody (slice_range held.now start end) end (length held.now) result }
{
    let bytes = &held[start..end];
    if count_lines(bytes) > MOST_LINES {
        return Next::Bad(HeadFault::HeadTooLarge);
    }
    let Some(read) = read_head(bytes) else {
        return Next::Bad(HeadFault::Malformed);
    };
    match read.body {
        Err(fault) => Next::Bad(fault),
        Ok(count) => {
            if held.len() - end < count {
                Next::Awaits(end + count)
            } else {
                Next::Whole(Found {
                    head: Span { start, end },
                    read,
                    end: end + count,
                })
            }
        }
    }
}

/// What stands at the front of the bytes.
pub(crate) fn read_next(held: &[u8]) -> Next
    ensures front { IsFront held.now (front_of held.now result) }
    ensures within { IsNextIn held.now result }
    ensures room { OnUnfinished result (length held.now < 73728) }
    ensures awaits { Awaits held.now result }
{
    match find_head(head_room(held)) {
        None => no_block(held),
        Some((start, end)) => block(held, start, end),
    }
}
