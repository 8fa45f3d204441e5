//! Sessions over ends in memory, with a handler that echoes.
ghost use Rattle.std.specs.Prelude.{◌≤◌};
ghost use Rattle.http_session.specs.Reply.{IsReply};

use http_session::{
    Allow, ClockMode, Handler, Reply, Request, SessionEnd, StreamEnd, session, stream_of,
};
use json_tree::Seq;
use serve_io::{MemClock, MemSink, MemSource, ReadAnswer, Sink, Source, WriteAnswer};
use std::alloc::{AllocError, Global};
use std::cell::Cell;
use std::test::Fail;

const TWO: &[u8] = b"GET /a HTTP/1.1\r\n\r\nGET /b HTTP/1.1\r\n\r\n";

// Answers with the target, and counts what it does behind the replies.
#[derive(Drop)]
struct Echo {
    alloc: Global,
    moments: u64,
    afters: u64,
}

fn reply_of(body: Vec<u8>) -> Reply
    ensures { IsReply result }
{
    Reply {
        code: 200,
        allow: Allow::None,
        body: Seq::from_vec(body),
    }
}

impl Handler for Echo {
    ghost use Rattle.std.specs.Prelude.{⊤};

    ghost asks = { λ _ _ _ _ _. ⊤ };

    ghost asks_cut = { λ _ _ _ _. ⊤ };

    ghost after_gives = { λ _ _. ⊤ };

    ghost after_cut = { λ _ _. ⊤ };

    fn handle(&mut self, now: Option<u64>, request: &Request) -> Result<Reply, AllocError> {
        self.moments = self.moments.saturating_add(now.unwrap_or(0));
        let body = Vec::from_slice(self.alloc, request.target.bytes())?;
        Ok(reply_of(body))
    }

    fn after(&mut self) -> Result<(), AllocError> {
        self.afters = self.afters.saturating_add(1);
        Ok(())
    }
}

const REPLIES: &[u8] =
    b"HTTP/1.1 200 OK\r\nContent-Type: application/json\r\nContent-Length: 2\r\n\r\n/aHTTP/1.1 200 OK\r\nContent-Type: application/json\r\nContent-Length: 2\r\n\r\n/b";

fn new_echo(alloc: Global) -> Echo {
    Echo {
        alloc,
        moments: 0,
        afters: 0,
    }
}

// However the reads and writes cut them, the requests and replies are the same.
#[test]
fn answers_byte_by_byte(rt: HostRuntime) -> Result<(), Fail> {
    let alloc = rt.alloc();
    let mut clock = MemClock::new(vec![in alloc; 5, 7]?);
    let mut source = MemSource::new(Vec::from_slice(alloc, TWO)?, 1, Vec::new(alloc));
    let mut sink = MemSink::new(alloc, 400, 3, Vec::new(alloc))?;
    let mut echo = new_echo(alloc);
    let mode = ClockMode::Ask;
    let report = session(alloc, &mut echo, &mut source, &mut sink, &mut clock, mode);
    assert_eq!(rt; report.end, SessionEnd::Clean);
    assert_eq!(rt; report.answered, 2);
    assert_eq!(rt; (echo.moments, echo.afters), (12, 2));
    assert_eq!(rt; sink.bytes(), REPLIES);
    Ok(())
}

#[test]
fn stream_is_read_at_once(rt: HostRuntime) -> Result<(), Fail> {
    let stream = stream_of(rt.alloc(), TWO)?;
    assert_eq!(rt; stream.end, StreamEnd::Clean);
    assert_eq!(rt; stream.requests.len(), 2);
    Ok(())
}

// Gives its bytes, and then notes how many bytes were written before it was read again.
#[derive(Drop)]
struct Watch<'a> {
    rest: &'static [u8],
    written: &'a Cell<usize>,
    seen: usize,
}

impl<'a> Source for Watch<'a> {
    ghost use Rattle.std.specs.Prelude.{None};

    ghost left = { λ _. None };

    ghost faults = { λ _. 0 };

    fn read(&mut self, room: &mut [u8]) -> ReadAnswer {
        let count = room.len().min(self.rest.len());
        if count == 0 {
            self.seen = self.written.get();
            return ReadAnswer::End;
        }
        room[..count].copy_from_slice(&self.rest[..count]);
        self.rest = &self.rest[count..];
        ReadAnswer::Got(count)
    }
}

// Counts the bytes that it takes.
#[derive(Drop)]
struct Counter<'a> {
    written: &'a Cell<usize>,
}

impl<'a> Sink for Counter<'a> {
    ghost use Rattle.std.specs.Prelude.{None, ⊤};

    ghost taken = { λ _. None };

    ghost faults = { λ _. 0 };

    ghost writes = { λ _ _ _ _. ⊤ };

    fn write(&mut self, piece: &[u8]) -> WriteAnswer {
        self.written
            .set(self.written.get().saturating_add(piece.len()));
        WriteAnswer::Took(piece.len())
    }
}

// The only order that no clause says: a client may wait for its reply before it sends more.
#[test]
fn answers_before_it_reads_on(rt: HostRuntime) {
    let alloc = rt.alloc();
    let written = Cell::new(0);
    let mut source = Watch {
        rest: TWO,
        written: &written,
        seen: 0,
    };
    let mut sink = Counter { written: &written };
    let mut clock = MemClock::new(Vec::new(alloc));
    let mut echo = new_echo(alloc);
    let mode = ClockMode::Leave;
    let report = session(alloc, &mut echo, &mut source, &mut sink, &mut clock, mode);
    assert_eq!(rt; report.end, SessionEnd::Clean);
    assert_eq!(rt; source.seen, REPLIES.len());
}
