//! Ends that never fail: their counts of faults are 0.
ghost use Rattle.std.specs.Prelude.{◌≡◌, ℕ, ◌≤◌, ◌-◌, List, [], length, Some, None, drop, false, IfOk, map};
ghost use Rattle.serve_io.specs.Gate.{ends_of};
ghost use Rattle.serve_io.specs.MemGate.{GivesOne};
ghost use Rattle.serve_io.specs.declared.sink.WriteAnswer.TheVariants.{Took};

use crate::connections::Connections;
use crate::gate::{Gate, Listened, Next};
use crate::sink::{Sink, WriteAnswer};
use crate::source::{ReadAnswer, Source};
use json_tree::Text;
use std::alloc::{AllocError, Global};

/// Bytes in memory, which no call fails to give.
#[derive(Debug, Drop)]
pub struct SureSource {
    bytes: Vec<u8>,
    at: usize,
    ghost within: { at ≤ length bytes.items },
}

impl SureSource {
    /// A source of these bytes.
    pub fn new(bytes: Vec<u8>) -> SureSource
        ensures { ⟦<SureSource as Source>⟧.left result ≡ Some bytes.items }
    {
        SureSource { bytes, at: 0 }
    }
}

impl Source for SureSource {
    ghost left = { λ s. Some (drop s.at s.bytes.items) };

    ghost faults = { λ _. 0 };

    fn read(&mut self, room: &mut [u8]) -> ReadAnswer {
        let count = (self.bytes.len() - self.at).min(room.len());
        if count == 0 {
            return ReadAnswer::End;
        }
        let end = self.at + count;
        room[..count].copy_from_slice(&self.bytes[self.at..end]);
        self.at = end;
        ReadAnswer::Got(count)
    }
}

/// Takes each piece whole, keeps no byte and tells none.
#[derive(Debug, Drop)]
pub struct SureSink {}

impl SureSink {
    /// A sink that forgets what it takes.
    pub fn new() -> SureSink {
        SureSink {}
    }
}

impl Sink for SureSink {
    ghost taken = { λ _. None };

    ghost faults = { λ _. 0 };

    ghost writes = { λ old piece answer new. (answer ≡ Took (length piece)) × (new ≡ old) };

    fn write(&mut self, piece: &[u8]) -> WriteAnswer {
        WriteAnswer::Took(piece.len())
    }
}

/// Connections in memory, which no call fails to give.
#[derive(Debug, Drop)]
pub struct SureGate {
    connections: Connections<SureSource, SureSink>,
}

impl SureGate {
    /// A gate to which these connections are to come, in order.
    pub fn new(
        alloc: Global,
        connections: Vec<(SureSource, SureSink)>,
    ) -> Result<SureGate, AllocError>
        ensures coming { IfOk result (λ g. ⟦<SureGate as Gate>⟧.coming g ≡ Some (map (λ c. ends_of
            ⟦<SureSource as Source>⟧.left ⟦<SureSource as Source>⟧.faults ⟦<SureSink as Sink>⟧.taken ⟦<SureSink as Sink>⟧.faults c.0 c.1) connections.items)) }
        ensures back { IfOk result (λ g. ⟦<SureGate as Gate>⟧.back g ≡ Some []) }
        ensures listens { IfOk result (λ g. ⟦<SureGate as Gate>⟧.listens g ≡ false) }
        ensures out { IfOk result (λ g. ⟦<SureGate as Gate>⟧.out g ≡ 0) }
    {
        Ok(SureGate {
            connections: Connections::new(alloc, connections)?,
        })
    }
}

impl Gate for SureGate {
    type In = SureSource;

    type Out = SureSink;

    ghost coming = { λ g. Some (map (λ c. ends_of
        ⟦<SureSource as Source>⟧.left ⟦<SureSource as Source>⟧.faults ⟦<SureSink as Sink>⟧.taken ⟦<SureSink as Sink>⟧.faults c.0 c.1) g.connections.coming.items) };

    ghost back = { λ g. Some (map (λ c. ends_of
        ⟦<SureSource as Source>⟧.left ⟦<SureSource as Source>⟧.faults ⟦<SureSink as Sink>⟧.taken ⟦<SureSink as Sink>⟧.faults c.0 c.1) g.connections.back.items) };

    ghost listening_at = { λ g. Some g.connections.address.items };

    ghost listens = { λ g. g.connections.listens };

    ghost out = { λ g. g.connections.out };

    ghost faults = { λ _. 0 };

    ghost gave = { λ old answer new. GivesOne old.connections.out answer new.connections.out };

    ghost took = { λ old new. new.connections.out ≡ old.connections.out - 1 };

    fn listen(&mut self, address: &Text) -> Listened {
        self.connections.listen(address);
        Listened::Ready
    }

    fn next(&mut self) -> Next<SureSource, SureSink> {
        match self.connections.take() {
            Some((input, output)) => Next::Connection { input, output },
            None => Next::Closed,
        }
    }

    fn done(&mut self, input: SureSource, output: SureSink) {
        self.connections.put_back(input, output);
    }
}
