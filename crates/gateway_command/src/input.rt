//! Reading polls from a source.
ghost use Rattle.std.specs.Prelude.{◌≡◌, ◌≢◌, ◌<◌, ◌≤◌, length, take, IfOk, IsErrOf};
ghost use Rattle.std.specs.Vec.{vec_len};
ghost use Rattle.serve_io.specs.Causes.{HasCause};
ghost use Rattle.serve_io.specs.Source.{ReadTakes};
ghost use Rattle.gateway_command.specs.Lines.{FollowsLine, IsRefused};
ghost use Rattle.gateway_command.specs.Reads.{Reads};

use crate::following::{follow_line, take_bytes};
use gateway_pick::{FollowError, Gateway};
use serve_io::{ReadAnswer, Source};
use std::alloc::{AllocError, Global};

/// The most bytes of an input, with the one by which a longer one is seen.
const MOST_READ: u64 = 4_294_967_295;

/// The room for one read, in bytes.
const ROOM: usize = 65_536;

/// Why polls aren't followed to the end of the input.
#[derive(Clone, Copy, Debug, PartialEq, Eq)]
pub(crate) enum Unread {
    /// A line isn't followed, or is too long.
    Refused,
    /// A read failed.
    Fault,
    /// The input is too long.
    TooLong,
    /// Out of memory.
    Memory,
}

/// Why a line isn't followed.
fn unfollowed(error: FollowError) -> Unread
    ensures refused { result ≡ Unread.Refused → error ≡ FollowError.Refused }
    ensures calm { result ≢ Unread.Fault }
    ensures short { result ≢ Unread.TooLong }
{
    match error {
        FollowError::Refused => Unread::Refused,
        FollowError::Memory => Unread::Memory,
    }
}

/// Reads into the first bytes of the room.
fn read_most<S: Source>(room: &mut [u8], most: usize, source: &mut S) -> ReadAnswer
    requires some { 0 < most }
    requires room { most ≤ length room.old }
    ensures bytes { ReadTakes (S.left source.old) (S.left source.new) (take most room.new) result }
    ensures length { length room.new ≡ length room.old }
    ensures cause { HasCause (S.faults source.old) (S.faults source.new) (result ≡ ReadAnswer.Failed) }
    ensures calm { result ≢ ReadAnswer.Failed → S.faults source.new ≡ S.faults source.old }
{
    source.read(&mut room[..most])
}

/// Follows the poll of the line that the input's end leaves open.
fn follow_last(mut gateway: Gateway, line: &[u8]) -> Result<Gateway, Unread>
    ensures ok { IfOk result (FollowsLine gateway line.now) }
    ensures refused { IsErrOf result Unread.Refused → IsRefused line.now gateway }
    ensures calm { ¬ (IsErrOf result Unread.Fault) }
    ensures short { ¬ (IsErrOf result Unread.TooLong) }
{
    match follow_line(&mut gateway, line) {
        Ok(()) => Ok(gateway),
        Err(error) => Err(unfollowed(error)),
    }
}

/// Takes the room for one read.
fn new_room(alloc: Global) -> Result<Vec<u8>, AllocError>
    ensures { IfOk result (λ room. vec_len room ≡ 65536) }
{
    vec![in alloc; 0u8; ROOM]
}

/// A gateway that followed the polls of a source, over room for one read.
fn follow_in<S: Source>(alloc: Global, room: &mut [u8], source: &mut S) -> Result<Gateway, Unread>
    requires { length room.old ≡ 65536 }
    ensures reads { Reads (S.left source.old) (S.left source.new) (S.faults source.old) (S.faults source.new) result }
    ensures calm { ¬ (IsErrOf result Unread.Fault) → S.faults source.new ≡ S.faults source.old }
{
    let mut gateway = Gateway::new(alloc);
    let mut line: Vec<u8> = Vec::new(alloc);
    let mut taken = 0u64;
    'reads: while taken < MOST_READ {
        let most = ROOM.min((MOST_READ - taken) as usize);
        match read_most(room, most, source) {
            ReadAnswer::Got(count) => match take_bytes(&mut gateway, &mut line, &room[..count]) {
                Ok(()) => taken += count as u64,
                Err(error) => return Err(unfollowed(error)),
            },
            ReadAnswer::End => return follow_last(gateway, line.as_slice()),
            ReadAnswer::Failed => return Err(Unread::Fault),
        }
    }
    Err(Unread::TooLong)
}

/// A gateway that followed the polls of a source, each a line of the input, to the input's end. The first line that isn't
/// followed ends it, and so does the first fault.
pub(crate) fn follow_all<S: Source>(alloc: Global, source: &mut S) -> Result<Gateway, Unread>
    ensures reads { Reads (S.left source.old) (S.left source.new) (S.faults source.old) (S.faults source.new) result }
    ensures calm { ¬ (IsErrOf result Unread.Fault) → S.faults source.new ≡ S.faults source.old }
{
    match new_room(alloc) {
        Ok(mut room) => follow_in(alloc, room.as_mut_slice(), source),
        Err(_) => Err(Unread::Memory),
    }
}
