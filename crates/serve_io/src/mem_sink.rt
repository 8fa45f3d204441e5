//! A sink in memory.
ghost use Rattle.std.specs.Prelude.{◌≡◌, ℕ, ◌≤◌, List, [], Some, IfOk};
ghost use Rattle.std.specs.Vec.{vec_capacity};
ghost use Rattle.serve_io.specs.MemRoom.{MemWrites, room_of};

use crate::calls::Calls;
use crate::sink::{Sink, WriteAnswer};
use std::alloc::{AllocError, Global};

/// Room in memory. Its calls are numbered from 1. Those whose numbers are listed fail, and so does one with no room left.
#[derive(Debug, Drop)]
pub struct MemSink {
    bytes: Vec<u8>,
    room: usize,
    most: usize,
    calls: Calls,
    ghost some: { 1 ≤ most },
    ghost place: { room ≤ vec_capacity bytes },
}

impl MemSink {
    /// A sink with room for `room` bytes, which takes at most `most` of them per call.
    pub fn new(
        alloc: Global,
        room: usize,
        most: usize,
        failing: Vec<u64>,
    ) -> Result<MemSink, AllocError>
        requires { 1 ≤ most }
        ensures taken { IfOk result (λ s. ⟦<MemSink as Sink>⟧.taken s ≡ Some []) }
        ensures faults { IfOk result (λ s. ⟦<MemSink as Sink>⟧.faults s ≡ 0) }
        ensures room { IfOk result (λ s. s.room ≡ room) }
        ensures most { IfOk result (λ s. s.most ≡ most) }
        ensures calls { IfOk result (λ s. s.calls ≡ record { failing = failing; count = 0; faults = 0 }) }
    {
        Ok(MemSink {
            bytes: Vec::with_capacity(alloc, room)?,
            room,
            most,
            calls: Calls::new(failing),
        })
    }

    /// The bytes that it took.
    pub fn bytes(&self) -> &[u8]
        ensures { ⟦<MemSink as Sink>⟧.taken self.now ≡ Some result.now }
    {
        self.bytes.as_slice()
    }
}

impl Sink for MemSink {
    ghost taken = { λ s. Some s.bytes.items };

    ghost faults = { λ s. s.calls.faults };

    ghost writes = { λ old piece answer new.
        MemWrites (room_of old.bytes.items old.room old.most old.calls) piece answer (room_of new.bytes.items new.room new.most new.calls) };

    fn write(&mut self, piece: &[u8]) -> WriteAnswer {
        if self.calls.next_fails() {
            return WriteAnswer::Failed;
        }
        let count = self
            .room
            .saturating_sub(self.bytes.len())
            .min(self.most)
            .min(piece.len());
        if count == 0 {
            self.calls.fault();
            return WriteAnswer::Failed;
        }
        let _ = self.bytes.extend_from_slice(&piece[..count]);
        WriteAnswer::Took(count)
    }
}
