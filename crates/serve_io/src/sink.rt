//! Where bytes go.
ghost use Rattle.std.specs.Prelude.{◌≡◌, ◌≢◌, ℕ, ◌<◌, List, length, Option};
ghost use Rattle.serve_io.specs.Sink.{WriteAdds};
ghost use Rattle.serve_io.specs.Causes.{HasCause};
ghost use Rattle.serve_io.specs.declared.sink.WriteAnswer.{WriteAnswer};

/// What a write took.
#[derive(Clone, Copy, Debug, PartialEq, Eq)]
pub enum WriteAnswer {
    /// That many bytes, from the front of the piece.
    Took(usize),
    /// The write failed, and added no byte.
    Failed,
}

/// A sink means the bytes that it took, where it tells them, a count of faults that rises exactly where a write fails, and
/// `writes`: what a write of a piece with its answer may do to the sink's value.
pub trait Sink {
    ghost taken: { Self → Option (List ℕ) };

    ghost faults: { Self → ℕ };

    ghost writes: { Self → List ℕ → WriteAnswer → Self → Type 0 };

    /// Writes the first bytes of the piece, which isn't empty: at least one, or none where the sink fails.
    fn write(&mut self, piece: &[u8]) -> WriteAnswer
        requires { 0 < length piece.now }
        ensures bytes { WriteAdds (taken self.old) (taken self.new) piece.now result }
        ensures cause { HasCause (faults self.old) (faults self.new) (result ≡ WriteAnswer.Failed) }
        ensures calm { result ≢ WriteAnswer.Failed → faults self.new ≡ faults self.old }
        ensures writes { writes self.old piece.now result self.new };
}
