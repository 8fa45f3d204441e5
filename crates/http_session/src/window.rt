//! The bytes that were read and not used yet.
ghost use Rattle.std.specs.Prelude.{◌≡◌, ◌≢◌, ◌+◌, ◌-◌, ◌≤◌, ◌<◌, length, take, drop, [], slice_range, IfOk};
ghost use Rattle.serve_io.specs.Causes.{HasCause};
ghost use Rattle.serve_io.specs.Source.{ReadTakes};
ghost use Rattle.http_session.specs.Window.{Fills, got};
ghost use Rattle.std.specs.Vec.{vec_len};

use serve_io::{ReadAnswer, Source};
use std::alloc::{AllocError, Global};
use std::marker::Model;

/// The most bytes that are held: a head of 8,192 and a body of 65,536.
pub(crate) const ROOM: usize = 73_728;

/// Room in which bytes are held.
#[derive(Drop)]
pub(crate) struct Window {
    bytes: Vec<u8>,
    start: usize,
    end: usize,
}

impl Model for Window {
    ghost use Rattle.std.specs.Prelude.{◌≡◌, ◌≤◌, List, ℕ, slice_range};
    ghost use Rattle.std.specs.Vec.{vec_len};

    ghost Value = { List ℕ };

    ghost view = { λ w. slice_range w.bytes.items w.start w.end };

    ghost invariant = { λ w. (w.start ≤ w.end) × (w.end ≤ 73728) × (vec_len w.bytes ≡ 73728) };
}

impl Window {
    /// Takes the room.
    pub fn new(alloc: Global) -> Result<Window, AllocError>
        ensures { IfOk result (λ window. window ≡ []) }
    {
        let bytes = vec![in alloc; 0u8; ROOM]?;
        Ok(Window {
            bytes,
            start: 0,
            end: 0,
        })
    }

    /// The bytes that are held.
    pub fn held(&self) -> &[u8]
        ensures bytes { result.now ≡ self.now }
        ensures bound { length self.now ≤ 73728 }
    {
        &self.bytes.as_slice()[self.start..self.end]
    }

    /// How many bytes are held.
    pub fn len(&self) -> usize
        ensures len { result ≡ length self.now }
        ensures bound { length self.now ≤ 73728 }
    {
        self.end - self.start
    }

    /// Drops bytes that were used.
    pub fn drop_front(&mut self, count: usize)
        requires { count ≤ length self.old }
        ensures { self.new ≡ drop count self.old }
    {
        self.start += count;
    }

    /// Reads behind the bytes that are held.
    pub fn fill<S: Source>(&mut self, source: &mut S, most: usize) -> ReadAnswer
        requires some { 0 < most }
        requires room { length self.old < 73728 }
        ensures bytes { Fills most (S.left source.old) (S.left source.new) self.old self.new result }
        ensures room { length self.new ≤ 73728 }
        ensures cause { HasCause (S.faults source.old) (S.faults source.new) (result ≡ ReadAnswer.Failed) }
        ensures calm { result ≢ ReadAnswer.Failed → S.faults source.new ≡ S.faults source.old }
    {
        compact(&mut self.bytes, self.start, self.end);
        self.end -= self.start;
        self.start = 0;
        let limit = self.end + most.min(ROOM - self.end);
        let answer = read_into(self.bytes.as_mut_slice(), self.end, limit, source);
        if let ReadAnswer::Got(count) = answer {
            self.end += count;
        }
        answer
    }
}

/// Moves the bytes of a range to the front.
fn compact(bytes: &mut Vec<u8>, start: usize, end: usize)
    requires ordered { start ≤ end }
    requires in_range { end ≤ vec_len bytes.old }
    ensures moved { take (end - start) bytes.new.items ≡ slice_range bytes.old.items start end }
    ensures len { vec_len bytes.new ≡ vec_len bytes.old }
{
    if start > 0 {
        bytes.copy_within(start..end, 0);
    }
}

/// Reads behind the first bytes.
fn read_into<S: Source>(bytes: &mut [u8], at: usize, limit: usize, source: &mut S) -> ReadAnswer
    requires some { at < limit }
    requires in_range { limit ≤ length bytes.old }
    ensures bytes { Fills (limit - at) (S.left source.old) (S.left source.new)
        (take at bytes.old) (take (at + got result) bytes.new) result }
    ensures cause { HasCause (S.faults source.old) (S.faults source.new) (result ≡ ReadAnswer.Failed) }
    ensures calm { result ≢ ReadAnswer.Failed → S.faults source.new ≡ S.faults source.old }
{
    read_part(bytes, at, limit, source)
}

fn read_part<S: Source>(bytes: &mut [u8], at: usize, limit: usize, source: &mut S) -> ReadAnswer
    requires some { at < limit }
    requires in_range { limit ≤ length bytes.old }
    ensures bytes { ReadTakes (S.left source.old) (S.left source.new) (slice_range bytes.new at limit) result }
    ensures before { take at bytes.new ≡ take at bytes.old }
    ensures cause { HasCause (S.faults source.old) (S.faults source.new) (result ≡ ReadAnswer.Failed) }
    ensures calm { result ≢ ReadAnswer.Failed → S.faults source.new ≡ S.faults source.old }
{
    source.read(&mut bytes[at..limit])
}
