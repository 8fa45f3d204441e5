//! Reading the input.
ghost use Rattle.std.specs.Prelude.{◌≡◌, ◌≢◌, ◌<◌, ◌≤◌, length, take, drop, IfOk};
ghost use Rattle.std.specs.Vec.{vec_len};
ghost use Rattle.serve_io.specs.Causes.{HasCause};
ghost use Rattle.serve_io.specs.Source.{ReadTakes};
ghost use Rattle.manifest_check.specs.Input.{Reads};

use serve_io::{ReadAnswer, Source};
use std::alloc::{AllocError, Global};

/// The most bytes that are read: one more than a body may have.
const MOST_READ: usize = 65_537;

/// How reading into a room ended.
#[derive(Clone, Copy, Debug)]
pub(crate) enum Reading {
    /// The source is at its end behind so many bytes, which leave room.
    End(usize),
    /// The room is full.
    Full,
    /// A read failed.
    Failed,
}

/// Takes the room for the most bytes that are read.
pub(crate) fn new_room(alloc: Global) -> Result<Vec<u8>, AllocError>
    ensures { IfOk result (λ room. vec_len room ≡ 65537) }
{
    vec![in alloc; 0u8; MOST_READ]
}

/// Reads behind the first bytes of the room.
fn read_behind<S: Source>(room: &mut [u8], at: usize, source: &mut S) -> ReadAnswer
    requires { at < length room.old }
    ensures bytes { ReadTakes (S.left source.old) (S.left source.new) (drop at room.new) result }
    ensures before { take at room.new ≡ take at room.old }
    ensures cause { HasCause (S.faults source.old) (S.faults source.new) (result ≡ ReadAnswer.Failed) }
    ensures calm { result ≢ ReadAnswer.Failed → S.faults source.new ≡ S.faults source.old }
{
    source.read(&mut room[at..])
}

/// Reads until the room is full, the source is at its end or a read fails.
pub(crate) fn read_into<S: Source>(room: &mut [u8], source: &mut S) -> Reading
    ensures bytes { Reads (S.left source.old) (S.left source.new) (S.faults source.old) (S.faults source.new) room.new result }
    ensures later { S.faults source.old ≤ S.faults source.new }
    ensures calm { result ≢ Reading.Failed → S.faults source.new ≡ S.faults source.old }
{
    let mut count = 0;
    'reads: while count < room.len() {
        match read_behind(room, count, source) {
            ReadAnswer::Got(more) => count += more,
            ReadAnswer::End => return Reading::End(count),
            ReadAnswer::Failed => return Reading::Failed,
        }
    }
    Reading::Full
}
