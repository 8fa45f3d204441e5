//! One request: its moment, its reply, and the writing of it.
ghost use Rattle.std.specs.Prelude.{◌≡◌, ◌≢◌, ◌≤◌, ℕ, Option, true, IfOk, OnErr, IsUtf8};
ghost use Rattle.std.specs.Option.{ForSome};
ghost use Rattle.serve_io.specs.Clock.{last_moment};
ghost use Rattle.http_session.specs.Front.{IsFoundIn, request_at, asked_at};
ghost use Rattle.http_session.specs.Session.{TakesMoment};
ghost use Rattle.http_session.specs.Reply.{IsReply};
ghost use Rattle.http_session.specs.Answering.{Asks, AsksCut, AnswersAs, kept_whole};
ghost use Rattle.http_session.specs.Pieces.{AsksInPieces, CutsInPieces, writer_of};

use crate::front::Found;
use crate::handler::Handler;
use crate::message::{Reply, Request};
use crate::report::ClockMode;
use crate::room::Room;
use crate::sending::send_reply;
use json_tree::{Seq, Text};
use serve_io::{Clock, Sink};
use std::alloc::{AllocError, Global};
use std::str;

/// What came of a request.
#[derive(Clone, Copy)]
pub(crate) enum Outcome {
    /// Its reply was written whole.
    Sent,
    /// A write failed.
    Failed,
    /// Out of memory for the request.
    Memory,
}

/// The moment for one request.
fn take_moment<C: Clock>(clock: &mut C, mode: ClockMode) -> Option<u64>
    ensures moment { TakesMoment mode (C.moments clock.old) result (C.moments clock.new) }
    ensures range { ForSome result (λ moment. moment ≤ last_moment) }
    ensures left { mode ≡ ClockMode.Leave → clock.new ≡ clock.old }
{
    match mode {
        ClockMode::Ask => Some(clock.now()),
        ClockMode::Leave => None,
    }
}

/// A copy of bytes that are a text.
fn copy_text(alloc: Global, bytes: &[u8]) -> Result<Text, AllocError>
    requires { IsUtf8 bytes.now }
    ensures { IfOk result (λ text. text ≡ bytes.now) }
{
    Text::new(alloc, str::from_utf8(bytes).unwrap())
}

/// Copies a request out of the bytes that are held.
pub(crate) fn copy_request(alloc: Global, held: &[u8], found: Found) -> Result<Request, AllocError>
    requires { IsFoundIn held.now found }
    ensures { IfOk result (λ request. request ≡ request_at held.now found) }
{
    let head = found.head.of(held);
    Ok(Request {
        method: copy_text(alloc, found.read.method.of(head))?,
        target: copy_text(alloc, found.read.target.of(head))?,
        body: Seq::from_slice(alloc, &held[found.head.end..found.end])?,
    })
}

/// Hands a request to the handler, with its moment.
fn ask<H: Handler, C: Clock>(
    alloc: Global,
    handler: &mut H,
    held: &[u8],
    found: Found,
    clock: &mut C,
    mode: ClockMode,
) -> Result<Reply, AllocError>
    requires { IsFoundIn held.now found }
    ensures asked { IfOk result (λ reply. (now : Option ℕ) × Asks H.asks mode (request_at held.now found)
        handler.old handler.new (C.moments clock.old) (C.moments clock.new) now reply) }
    ensures reply { IfOk result IsReply }
    ensures cut { OnErr result (AsksCut H.asks_cut mode (request_at held.now found)
        handler.old handler.new (C.moments clock.old) (C.moments clock.new)) }
    ensures clock { mode ≡ ClockMode.Leave → clock.new ≡ clock.old }
{
    let request = copy_request(alloc, held, found)?;
    let now = take_moment(clock, mode);
    handler.handle(now, &request)
}

/// Hands a request to the handler, and writes its reply.
pub(crate) fn answer<H: Handler, K: Sink, C: Clock>(
    alloc: Global,
    handler: &mut H,
    held: &[u8],
    found: Found,
    room: &mut Room,
    sink: &mut K,
    clock: &mut C,
    mode: ClockMode,
) -> Outcome
    requires { IsFoundIn held.now found }
    ensures answers { AnswersAs H.asks H.asks_cut mode (asked_at held.now found) handler.old handler.new
        (C.moments clock.old) (C.moments clock.new) (K.taken sink.old) (K.taken sink.new) (K.faults sink.old) (K.faults sink.new) result }
    ensures pieces { AnswersAs (AsksInPieces H.asks K.writes) (CutsInPieces H.asks_cut) mode (asked_at held.now found)
        (writer_of handler.old sink.old true) (writer_of handler.new sink.new (kept_whole result))
        (C.moments clock.old) (C.moments clock.new) (K.taken sink.old) (K.taken sink.new) (K.faults sink.old) (K.faults sink.new) result }
    ensures clock { mode ≡ ClockMode.Leave → clock.new ≡ clock.old }
    ensures calm { result ≢ Outcome.Failed → K.faults sink.new ≡ K.faults sink.old }
{
    let Ok(reply) = ask(alloc, handler, held, found, clock, mode) else {
        return Outcome::Memory;
    };
    let method = found.read.method.of(found.head.of(held));
    if send_reply(room, sink, method, found.read.closes, &reply) {
        Outcome::Sent
    } else {
        Outcome::Failed
    }
}
