//! A gate in memory.
ghost use Rattle.std.specs.Prelude.{◌≡◌, ℕ, ◌-◌, List, [], Option, Some, false, IfOk, map};
ghost use Rattle.serve_io.specs.Gate.{Ends, ends_of};
ghost use Rattle.serve_io.specs.MemGate.{MemListens, MemGives, GivesOne};

use crate::calls::Calls;
use crate::connections::Connections;
use crate::gate::{Gate, Listened, Next};
use crate::mem_sink::MemSink;
use crate::mem_source::MemSource;
use crate::sink::Sink;
use crate::source::Source;
use json_tree::Text;
use std::alloc::{AllocError, Global};

/// Connections in memory. Its calls of `listen` and `next` are numbered together from 1, and exactly those whose numbers are listed fail.
/// As many connections are out as it gave, less those that were handed back.
#[derive(Debug, Drop)]
pub struct MemGate {
    connections: Connections<MemSource, MemSink>,
    calls: Calls,
}

impl MemGate {
    /// A gate to which these connections are to come, in order.
    pub fn new(
        alloc: Global,
        connections: Vec<(MemSource, MemSink)>,
        failing: Vec<u64>,
    ) -> Result<MemGate, AllocError>
        ensures coming { IfOk result (λ g. ⟦<MemGate as Gate>⟧.coming g ≡ Some (map (λ c. ends_of
            ⟦<MemSource as Source>⟧.left ⟦<MemSource as Source>⟧.faults ⟦<MemSink as Sink>⟧.taken ⟦<MemSink as Sink>⟧.faults c.0 c.1) connections.items)) }
        ensures back { IfOk result (λ g. ⟦<MemGate as Gate>⟧.back g ≡ Some []) }
        ensures listens { IfOk result (λ g. ⟦<MemGate as Gate>⟧.listens g ≡ false) }
        ensures out { IfOk result (λ g. ⟦<MemGate as Gate>⟧.out g ≡ 0) }
        ensures faults { IfOk result (λ g. ⟦<MemGate as Gate>⟧.faults g ≡ 0) }
    {
        Ok(MemGate {
            connections: Connections::new(alloc, connections)?,
            calls: Calls::new(failing),
        })
    }

    /// The ends that were handed back, in order.
    pub fn back(&self) -> &[(MemSource, MemSink)]
        ensures { ⟦<MemGate as Gate>⟧.back self.now ≡ Some (map (λ c. ends_of
            ⟦<MemSource as Source>⟧.left ⟦<MemSource as Source>⟧.faults ⟦<MemSink as Sink>⟧.taken ⟦<MemSink as Sink>⟧.faults c.0 c.1) result.now) }
    {
        self.connections.back.as_slice()
    }
}

impl Gate for MemGate {
    type In = MemSource;

    type Out = MemSink;

    ghost coming = { λ g. Some (map (λ c. ends_of
        ⟦<MemSource as Source>⟧.left ⟦<MemSource as Source>⟧.faults ⟦<MemSink as Sink>⟧.taken ⟦<MemSink as Sink>⟧.faults c.0 c.1) g.connections.coming.items) };

    ghost back = { λ g. Some (map (λ c. ends_of
        ⟦<MemSource as Source>⟧.left ⟦<MemSource as Source>⟧.faults ⟦<MemSink as Sink>⟧.taken ⟦<MemSink as Sink>⟧.faults c.0 c.1) g.connections.back.items) };

    ghost listening_at = { λ g. Some g.connections.address.items };

    ghost listens = { λ g. g.connections.listens };

    ghost out = { λ g. g.connections.out };

    ghost faults = { λ g. g.calls.faults };

    ghost listened = { λ old answer new. MemListens old.calls answer new.calls };

    ghost gave = { λ old answer new.
        MemGives old.calls answer new.calls × GivesOne old.connections.out answer new.connections.out };

    ghost took = { λ old new. (new.calls ≡ old.calls) × (new.connections.out ≡ old.connections.out - 1) };

    fn listen(&mut self, address: &Text) -> Listened {
        if self.calls.next_fails() {
            return Listened::Failed;
        }
        self.connections.listen(address);
        Listened::Ready
    }

    fn next(&mut self) -> Next<MemSource, MemSink> {
        if self.calls.next_fails() {
            return Next::Failed;
        }
        match self.connections.take() {
            Some((input, output)) => Next::Connection { input, output },
            None => Next::Closed,
        }
    }

    fn done(&mut self, input: MemSource, output: MemSink) {
        self.connections.put_back(input, output);
    }
}
