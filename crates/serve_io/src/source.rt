//! Where bytes come from.
ghost use Rattle.std.specs.Prelude.{◌≡◌, ◌≢◌, ℕ, ◌<◌, List, length, Option, ⊤};
ghost use Rattle.serve_io.specs.Source.{ReadTakes};
ghost use Rattle.serve_io.specs.Causes.{HasCause};
ghost use Rattle.serve_io.specs.declared.source.ReadAnswer.{ReadAnswer};

/// What a read gave.
#[derive(Clone, Copy, Debug, PartialEq, Eq)]
pub enum ReadAnswer {
    /// That many bytes, at the front of the room.
    Got(usize),
    /// No byte is left.
    End,
    /// The read failed, and took no byte.
    Failed,
}

/// A source means the bytes that it has left, where it tells them, a count of faults that rises exactly where a read fails, and
/// `reads`: what a read into a room with its answer may do to the source's value, where it says more than the bytes.
pub trait Source {
    ghost left: { Self → Option (List ℕ) };

    ghost faults: { Self → ℕ };

    ghost reads: { Self → List ℕ → ReadAnswer → Self → Type 0 } = { λ old room answer new. ⊤ };

    /// Reads the next bytes into the room, which isn't empty: at least one, or none where the source is at its end or fails.
    fn read(&mut self, room: &mut [u8]) -> ReadAnswer
        requires { 0 < length room.old }
        ensures bytes { ReadTakes (left self.old) (left self.new) room.new result }
        ensures cause { HasCause (faults self.old) (faults self.new) (result ≡ ReadAnswer.Failed) }
        ensures calm { result ≢ ReadAnswer.Failed → faults self.new ≡ faults self.old }
        ensures reads { reads self.old room.old result self.new };
}
