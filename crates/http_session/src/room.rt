//! The head of a reply, in room that is taken once.
ghost use Rattle.std.specs.Prelude.{◌≡◌, ◌+◌, ◌≤◌, ◌++◌, [], length, IfOk, codes, decimal};
ghost use Rattle.http_session.specs.Reply.{head_bytes, phrase_of, allow_line, close_line};

use crate::message::Allow;
use http::StatusCode;
use itoa::Buffer;
use std::alloc::{AllocError, Global};
use std::marker::Model;

/// The least room, in bytes: no head of a reply is longer.
const ROOM: usize = 512;

/// Room that the head of each reply fits.
#[derive(Drop)]
pub(crate) struct Room {
    bytes: Vec<u8>,
}

impl Model for Room {
    ghost use Rattle.std.specs.Prelude.{◌≤◌, List, ℕ};
    ghost use Rattle.std.specs.Vec.{vec_capacity};
    ghost use Rattle.http_session.specs.declared.room.TheConstants.{ROOM};

    ghost Value = { List ℕ };

    ghost view = { λ r. r.bytes.items };

    ghost invariant = { λ r. ROOM ≤ vec_capacity r.bytes };
}

impl Room {
    /// Takes the room.
    pub fn new(alloc: Global) -> Result<Room, AllocError>
        ensures { IfOk result (λ room. room ≡ []) }
    {
        let bytes = Vec::with_capacity(alloc, ROOM)?;
        Ok(Room { bytes })
    }

    /// Drops what was written.
    pub fn clear(&mut self)
        ensures { self.new ≡ [] }
    {
        self.bytes.clear();
    }

    /// Writes behind what was written.
    pub fn push(&mut self, text: &[u8])
        requires { length self.old + length text.now ≤ ROOM }
        ensures { self.new ≡ self.old ++ text.now }
    {
        let _ = self.bytes.extend_from_slice(text);
    }

    /// What was written.
    pub fn bytes(&self) -> &[u8]
        ensures { result.now ≡ self.now }
    {
        self.bytes.as_slice()
    }
}

ghost use Rattle.http_session.specs.Reply.{IsReplyCode};

/// The reason phrase of a code.
fn phrase(code: u16) -> &'static str
    requires { IsReplyCode code }
    ensures text { result.now ≡ phrase_of code }
    ensures short { length result.now ≤ 40 }
{
    match StatusCode::from_u16(code) {
        Ok(status) => status.canonical_reason().unwrap_or(""),
        Err(_) => "",
    }
}

impl Room {
    /// The status line.
    fn put_status(&mut self, code: u16)
        requires code { IsReplyCode code }
        requires start { self.old ≡ [] }
        ensures text { self.new ≡ codes "HTTP/1.1 " ++ decimal code ++ codes " " ++ phrase_of code ++ codes "\r\n" }
        ensures short { length self.new ≤ 120 }
    {
        let mut digits = Buffer::new();
        self.push(b"HTTP/1.1 ");
        self.push(digits.format(code).as_bytes());
        self.push(b" ");
        self.push(phrase(code).as_bytes());
        self.push(b"\r\n");
    }

    /// The fields on the body.
    fn put_length(&mut self, count: usize)
        requires { length self.old ≤ 120 }
        ensures text { self.new ≡ self.old ++ codes "Content-Type: application/json\r\n" ++ codes "Content-Length: " ++ decimal count ++ codes "\r\n" }
        ensures short { length self.new ≤ 300 }
    {
        let mut digits = Buffer::new();
        self.push(b"Content-Type: application/json\r\n");
        self.push(b"Content-Length: ");
        self.push(digits.format(count).as_bytes());
        self.push(b"\r\n");
    }

    fn put_allow(&mut self, allow: Allow)
        requires { length self.old ≤ 300 }
        ensures text { self.new ≡ self.old ++ allow_line allow }
        ensures short { length self.new ≤ 400 }
    {
        match allow {
            Allow::None => {}
            Allow::Get => self.push(b"Allow: GET\r\n"),
            Allow::GetPost => self.push(b"Allow: GET, POST\r\n"),
            Allow::GetDelete => self.push(b"Allow: GET, DELETE\r\n"),
            Allow::GetPutPatchDelete => self.push(b"Allow: GET, PUT, PATCH, DELETE\r\n"),
            Allow::Post => self.push(b"Allow: POST\r\n"),
        }
    }

    fn put_close(&mut self, closes: bool)
        requires { length self.old ≤ 400 }
        ensures text { self.new ≡ self.old ++ close_line closes ++ codes "\r\n" }
    {
        if closes {
            self.push(b"Connection: close\r\n");
        }
        self.push(b"\r\n");
    }

    /// Makes the head of a reply, with the length of its body.
    #[tactic(auto, unfolding(crate::specs::Reply::head_bytes))]
    pub fn put_head(&mut self, closes: bool, code: u16, allow: Allow, count: usize)
        requires { IsReplyCode code }
        ensures { self.new ≡ head_bytes closes code allow count }
    {
        self.clear();
        self.put_status(code);
        self.put_length(count);
        self.put_allow(allow);
        self.put_close(closes);
    }
}
