//! The line that tells how a connection was served.
ghost use Rattle.std.specs.Prelude.{◌≡◌, ◌+◌, ◌≤◌, ◌++◌, [], length, IfOk, codes, decimal};
ghost use Rattle.connection_loop.specs.Lines.{end_word, line_of};

use http_session::{SessionEnd, SessionReport};
use itoa::Buffer;
use std::alloc::{AllocError, Global};
use std::marker::Model;

/// The room of a line, in bytes: no line is longer.
const ROOM: usize = 128;

/// The word for the end of a session.
fn end_word(end: SessionEnd) -> &'static [u8]
    ensures word { result.now ≡ end_word end }
    ensures short { length result.now ≤ 20 }
{
    match end {
        SessionEnd::Clean => b"clean",
        SessionEnd::Closed => b"closed",
        SessionEnd::Cut => b"cut",
        SessionEnd::Bad(_) => b"bad",
        SessionEnd::ReadFault => b"readfault",
        SessionEnd::WriteFault => b"writefault",
        SessionEnd::TooLong => b"toolong",
        SessionEnd::Memory => b"memory",
    }
}

/// Room that each line fits. It is taken once, so that a line takes no memory.
#[derive(Drop)]
pub(crate) struct LineRoom {
    bytes: Vec<u8>,
}

impl Model for LineRoom {
    ghost use Rattle.std.specs.Prelude.{◌≤◌, List, ℕ};
    ghost use Rattle.std.specs.Vec.{vec_capacity};
    ghost use Rattle.connection_loop.specs.declared.lines.TheConstants.{ROOM};

    ghost Value = { List ℕ };

    ghost view = { λ r. r.bytes.items };

    ghost invariant = { λ r. ROOM ≤ vec_capacity r.bytes };
}

impl LineRoom {
    /// Takes the room.
    pub fn new(alloc: Global) -> Result<LineRoom, AllocError>
        ensures { IfOk result (λ room. room ≡ []) }
    {
        let bytes = Vec::with_capacity(alloc, ROOM)?;
        Ok(LineRoom { bytes })
    }

    fn clear(&mut self)
        ensures { self.new ≡ [] }
    {
        self.bytes.clear();
    }

    fn push(&mut self, text: &[u8])
        requires { length self.old + length text.now ≤ ROOM }
        ensures { self.new ≡ self.old ++ text.now }
    {
        let _ = self.bytes.extend_from_slice(text);
    }

    /// Which connection it was, and how its session ended.
    fn put_end(&mut self, number: u64, end: SessionEnd)
        requires { self.old ≡ [] }
        ensures text { self.new ≡ codes "connection " ++ decimal number ++ codes ": " ++ end_word end }
        ensures short { length self.new ≤ 64 }
    {
        let mut digits = Buffer::new();
        self.push(b"connection ");
        self.push(digits.format(number).as_bytes());
        self.push(b": ");
        self.push(end_word(end));
    }

    /// How many requests were answered.
    fn put_count(&mut self, answered: u64)
        requires { length self.old ≤ 64 }
        ensures { self.new ≡ self.old ++ codes ", " ++ decimal answered ++ codes " answered\n" }
    {
        let mut digits = Buffer::new();
        self.push(b", ");
        self.push(digits.format(answered).as_bytes());
        self.push(b" answered\n");
    }

    /// Makes the line of a connection.
    #[tactic(auto, unfolding(crate::specs::Lines::line_of))]
    pub fn put_line(&mut self, number: u64, report: SessionReport)
        ensures { self.new ≡ line_of number report.end report.answered }
    {
        self.clear();
        self.put_end(number, report.end);
        self.put_count(report.answered);
    }

    /// The line.
    pub fn bytes(&self) -> &[u8]
        ensures { result.now ≡ self.now }
    {
        self.bytes.as_slice()
    }
}
