//! A source in memory.
ghost use Rattle.std.specs.Prelude.{◌≡◌, ℕ, ◌≤◌, ◌-◌, List, length, Some, drop};
ghost use Rattle.serve_io.specs.MemSource.{MemReads};

use crate::calls::Calls;
use crate::source::{ReadAnswer, Source};

/// Bytes in memory. Its calls are numbered from 1, and exactly those whose numbers are listed fail. Each other call gives as many
/// bytes as are left, as one call gives and as its room takes.
#[derive(Debug, Drop)]
pub struct MemSource {
    bytes: Vec<u8>,
    at: usize,
    most: usize,
    calls: Calls,
    ghost some: { 1 ≤ most },
    ghost within: { at ≤ length bytes.items },
}

impl MemSource {
    /// A source of these bytes, which gives at most `most` of them per call.
    pub fn new(bytes: Vec<u8>, most: usize, failing: Vec<u64>) -> MemSource
        requires { 1 ≤ most }
        ensures left { ⟦<MemSource as Source>⟧.left result ≡ Some bytes.items }
        ensures faults { ⟦<MemSource as Source>⟧.faults result ≡ 0 }
        ensures most { result.most ≡ most }
        ensures calls { result.calls ≡ record { failing = failing; count = 0; faults = 0 } }
    {
        MemSource {
            bytes,
            at: 0,
            most,
            calls: Calls::new(failing),
        }
    }
}

impl Source for MemSource {
    ghost left = { λ s. Some (drop s.at s.bytes.items) };

    ghost faults = { λ s. s.calls.faults };

    ghost reads = { λ old room answer new.
        MemReads old.calls (length old.bytes.items - old.at) old.most room answer new.calls new.most };

    fn read(&mut self, room: &mut [u8]) -> ReadAnswer {
        if self.calls.next_fails() {
            return ReadAnswer::Failed;
        }
        let count = (self.bytes.len() - self.at).min(self.most).min(room.len());
        if count == 0 {
            return ReadAnswer::End;
        }
        let end = self.at + count;
        room[..count].copy_from_slice(&self.bytes[self.at..end]);
        self.at = end;
        ReadAnswer::Got(count)
    }
}
