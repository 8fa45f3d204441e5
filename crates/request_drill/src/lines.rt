//! The lines of a drill.
ghost use Rattle.std.specs.Prelude.{◌≡◌, ◌+◌, ◌≤◌, ◌++◌, [], length, IfOk, decimal, codes};
ghost use Rattle.request_drill.specs.Lines as spec;

use itoa::Buffer;
use std::alloc::{AllocError, Global};
use std::marker::Model;

/// What a drill came to.
#[derive(Clone, Copy, Debug, PartialEq, Eq)]
pub(crate) struct Figures {
    /// How many requests the stream has.
    pub requests: u64,
    /// How many requests were answered.
    pub answered: u64,
    /// How many of the replies have a code from 400.
    pub refused: u64,
    /// The length of the journal.
    pub journal: u64,
    /// How many Tables stand, in all namespaces.
    pub tables: u64,
    /// How many turns were made.
    pub turns: u64,
    /// How often a controller looked.
    pub looks: u64,
}

/// The least room, in bytes: the lines are never longer.
const ROOM: usize = 256;

/// Room that the lines fit. To fill it takes no memory.
#[derive(Drop)]
pub(crate) struct Lines {
    bytes: Vec<u8>,
}

impl Model for Lines {
    ghost use Rattle.std.specs.Prelude.{◌≤◌, List, ℕ};
    ghost use Rattle.std.specs.Vec.{vec_capacity};
    ghost use Rattle.request_drill.specs.declared.lines.TheConstants.{ROOM};

    ghost Value = { List ℕ };

    ghost view = { λ l. l.bytes.items };

    ghost invariant = { λ l. ROOM ≤ vec_capacity l.bytes };
}

impl Lines {
    /// Takes the room.
    pub fn new(alloc: Global) -> Result<Lines, AllocError>
        ensures { IfOk result (λ lines. lines ≡ []) }
    {
        let bytes = Vec::with_capacity(alloc, ROOM)?;
        Ok(Lines { bytes })
    }

    /// What was written.
    pub fn bytes(&self) -> &[u8]
        ensures { result.now ≡ self.now }
    {
        self.bytes.as_slice()
    }

    fn push(&mut self, text: &str)
        requires { length self.old + length text.now ≤ ROOM }
        ensures { self.new ≡ self.old ++ text.now }
    {
        let _ = self.bytes.extend_from_slice(text.as_bytes());
    }

    fn push_number(&mut self, number: u64)
        requires { length self.old + 20 ≤ ROOM }
        ensures text { self.new ≡ self.old ++ decimal number }
        ensures short { length self.new ≤ length self.old + 20 }
    {
        let mut digits = Buffer::new();
        self.push(digits.format(number));
    }

    /// Writes a line: a word, a space and a number.
    fn push_line(&mut self, word: &str, number: u64)
        requires { length self.old + length word.now + 22 ≤ ROOM }
        ensures text { self.new ≡ self.old ++ word.now ++ codes " " ++ decimal number ++ codes "\n" }
        ensures short { length self.new ≤ length self.old + length word.now + 22 }
    {
        self.push(word);
        self.push(" ");
        self.push_number(number);
        self.push("\n");
    }

    /// Writes the lines.
    #[tactic(auto, unfolding(crate::specs::Lines::lines_of))]
    pub fn put(&mut self, figures: &Figures)
        requires { self.old ≡ [] }
        ensures { self.new ≡ spec.lines_of figures.now }
    {
        self.push_line("requests", figures.requests);
        self.push_line("answered", figures.answered);
        self.push_line("refused", figures.refused);
        self.push_line("journal", figures.journal);
        self.push_line("tables", figures.tables);
        self.push_line("turns", figures.turns);
        self.push_line("looks", figures.looks);
    }
}
