//! Where connections come from.
ghost use Rattle.std.specs.Prelude.{◌≡◌, ℕ, ◌+◌, ◌<◌, ◌≤◌, Bool, true, List, length, Option, ⊤};
ghost use Rattle.serve_io.specs.Causes.{HasCause};
ghost use Rattle.serve_io.specs.declared.gate.Listened.{Listened};
ghost use Rattle.serve_io.specs.declared.gate.Next.{Next};
ghost use Rattle.serve_io.specs.Gate.{Ends, ends_of, ListensAt, GivesNext, CountsOut, AddsBack};

use crate::sink::Sink;
use crate::source::Source;
use json_tree::Text;

/// What came of listening.
#[derive(Clone, Copy, Debug, PartialEq, Eq)]
pub enum Listened {
    /// The gate listens at the address.
    Ready,
    /// It doesn't, and the gate's count of faults rose.
    Failed,
}

/// What came next at a gate.
#[derive(Debug, Drop)]
pub enum Next<I, O> {
    /// A connection, with its two ends: what comes from the other side, and what goes to it.
    Connection { input: I, output: O },
    /// No connection is to come.
    Closed,
    /// The call failed, and the gate's count of faults rose.
    Failed,
}

/// A gate means the connections that are still to come, those that were handed back, and the address at which it listens, where
/// it tells them (an address that is empty while it doesn't listen). Every gate tells whether it listens, how many connections
/// are out, and a count of faults that never falls. `listened`, `gave` and `took` are what the calls `listen`, `next` and `done` may
/// do to the gate's value, where it says more than these.
pub trait Gate {
    /// The end of a connection that is read from.
    type In: Source;

    /// The end of a connection that is written to.
    type Out: Sink;

    ghost coming: { Self → Option (List Ends) };

    ghost back: { Self → Option (List Ends) };

    ghost listening_at: { Self → Option (List ℕ) };

    ghost listens: { Self → Bool };

    ghost out: { Self → ℕ };

    ghost faults: { Self → ℕ };

    ghost listened: { Self → Listened → Self → Type 0 } = { λ old answer new. ⊤ };

    ghost gave: { Self → Next Self.In Self.Out → Self → Type 0 } = { λ old answer new. ⊤ };

    ghost took: { Self → Self → Type 0 } = { λ old new. ⊤ };

    /// Listens at an address of 1 to 255 bytes.
    fn listen(&mut self, address: &Text) -> Listened
        requires some { 0 < length address.now }
        requires short { length address.now ≤ 255 }
        ensures listens { ListensAt (listens self.old) (listens self.new) (listening_at self.old) (listening_at self.new) address.now result }
        ensures coming { coming self.new ≡ coming self.old }
        ensures back { back self.new ≡ back self.old }
        ensures out { out self.new ≡ out self.old }
        ensures cause { HasCause (faults self.old) (faults self.new) (result ≡ Listened.Failed) }
        ensures listened { listened self.old result self.new };

    /// The next connection, of a gate that listens.
    fn next(&mut self) -> Next<Self::In, Self::Out>
        requires { listens self.old ≡ true }
        ensures gives { GivesNext (ends_of Self.In.left Self.In.faults Self.Out.taken Self.Out.faults) (coming self.old) (coming self.new) result }
        ensures out { CountsOut (out self.old) (out self.new) result }
        ensures back { back self.new ≡ back self.old }
        ensures listens { listens self.new ≡ listens self.old }
        ensures address { listening_at self.new ≡ listening_at self.old }
        ensures cause { HasCause (faults self.old) (faults self.new) (result ≡ Next.Failed) }
        ensures gave { gave self.old result self.new };

    /// Takes the two ends of a connection back, where one is out. It can't fail.
    fn done(&mut self, input: Self::In, output: Self::Out)
        requires { 1 ≤ out self.old }
        ensures back { AddsBack (back self.old) (back self.new) (ends_of Self.In.left Self.In.faults Self.Out.taken Self.Out.faults input output) }
        ensures coming { coming self.new ≡ coming self.old }
        ensures listens { listens self.new ≡ listens self.old }
        ensures address { listening_at self.new ≡ listening_at self.old }
        ensures out { out self.old ≤ out self.new + 1 }
        ensures count { faults self.old ≤ faults self.new }
        ensures took { took self.old self.new };
}
