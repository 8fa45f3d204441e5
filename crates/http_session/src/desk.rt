//! One turn of a session.
ghost use Rattle.std.specs.Prelude.{◌≡◌, ◌≢◌, ◌+◌, ◌≤◌, ◌<◌, ◌^◌, ◌-◌, ◌*◌, ℕ, List, Option, Some, IfNone, IfOk, length, drop, [], true};
ghost use Rattle.http_session.specs.Front.{IsFoundIn, asked_at};
ghost use Rattle.http_session.specs.Stream.{IsFront, whole};
ghost use Rattle.http_session.specs.Session.{state_of};
ghost use Rattle.http_session.specs.Desk.{Progress, Continues, ContinuesInPieces, Refills, end_after};
ghost use Rattle.http_session.specs.Pieces.{AsksInPieces, WorksInPieces, with_sink};

use crate::answering::{Outcome, answer};
use crate::front::{Found, Next, read_next};
use crate::handler::Handler;
use crate::report::{ClockMode, SessionEnd};
use crate::room::Room;
use crate::sending::send_fault;
use crate::window::Window;
use serve_io::{Clock, ReadAnswer, Sink, Source};
use std::alloc::{AllocError, Global};

/// The most bytes that a session takes.
const MOST_BYTES: u64 = 4_294_967_295;

/// What came of reading on.
#[derive(Clone, Copy)]
pub(crate) enum More {
    Bytes,
    End,
    Failed,
    TooLong,
}

/// Answers the whole request at the front.
fn serve_one<H: Handler, K: Sink, C: Clock>(
    alloc: Global,
    handler: &mut H,
    window: &mut Window,
    found: Found,
    room: &mut Room,
    sink: &mut K,
    clock: &mut C,
    mode: ClockMode,
    answered: &mut u64,
) -> Option<SessionEnd>
    requires within { IsFoundIn window.old found }
    requires front { IsFront window.old (whole (asked_at window.old found) (drop found.end window.old)) }
    requires room { answered.old < 2 ^ 64 - 1 }
    ensures count { answered.new + length window.new ≤ answered.old + length window.old }
    ensures smaller { IfNone result (length window.new < length window.old) }
    ensures clock { mode ≡ ClockMode.Leave → clock.new ≡ clock.old }
    ensures calm_sink { result ≢ Some SessionEnd.WriteFault → K.faults sink.new ≡ K.faults sink.old }
    ensures turn { (start : _) (left : Option (List ℕ)) (failed total : ℕ)
        → Progress H.asks H.after_gives mode start
        (state_of handler.old left failed (K.taken sink.old) (K.faults sink.old) (C.moments clock.old)) window.old total answered.old
        → Continues H.asks H.asks_cut H.after_gives H.after_cut mode start
        (state_of handler.new left failed (K.taken sink.new) (K.faults sink.new) (C.moments clock.new)) window.new total answered.new result }
    ensures pieces { (start : _) (left : Option (List ℕ)) (failed total : ℕ)
        → Progress (AsksInPieces H.asks K.writes) (WorksInPieces H.after_gives) mode start
        (with_sink (state_of handler.old left failed (K.taken sink.old) (K.faults sink.old) (C.moments clock.old)) sink.old true)
        window.old total answered.old
        → ContinuesInPieces H.asks H.asks_cut H.after_gives H.after_cut K.writes mode start
        (state_of handler.new left failed (K.taken sink.new) (K.faults sink.new) (C.moments clock.new)) sink.new
        window.new total answered.new result }
{
    match answer(
        alloc,
        handler,
        window.held(),
        found,
        room,
        sink,
        clock,
        mode,
    ) {
        Outcome::Sent => {}
        Outcome::Failed => return Some(SessionEnd::WriteFault),
        Outcome::Memory => return Some(SessionEnd::Memory),
    }
    *answered += 1;
    window.drop_front(found.end);
    match handler.after() {
        Ok(()) => {}
        Err(_) => return Some(SessionEnd::Memory),
    }
    if found.read.closes {
        return Some(SessionEnd::Closed);
    }
    None
}

/// Reads more bytes behind those that are held.
fn read_more<S: Source>(window: &mut Window, source: &mut S, total: &mut u64) -> More
    requires room { length window.old < 73728 }
    requires most { total.old ≤ MOST_BYTES }
    ensures most { total.new ≤ MOST_BYTES }
    ensures bytes { Refills (S.left source.old) (S.left source.new) (S.faults source.old) (S.faults source.new) window.old window.new total.old total.new result }
    ensures room { length window.new ≤ 73728 }
    ensures kept { result ≢ More.Bytes → window.new ≡ window.old }
    ensures calm { result ≢ More.Failed → S.faults source.new ≡ S.faults source.old }
{
    if *total == MOST_BYTES {
        return More::TooLong;
    }
    match window.fill(source, (MOST_BYTES - *total) as usize) {
        ReadAnswer::Got(count) => {
            *total += count as u64;
            More::Bytes
        }
        ReadAnswer::End => More::End,
        ReadAnswer::Failed => More::Failed,
    }
}

/// Reads until so many bytes are held.
fn read_until<S: Source>(
    window: &mut Window,
    source: &mut S,
    total: &mut u64,
    wanted: usize,
) -> More
    requires missing { length window.old < wanted }
    requires room { wanted ≤ 73728 }
    requires most { total.old ≤ MOST_BYTES }
    ensures most { total.new ≤ MOST_BYTES }
    ensures bytes { Refills (S.left source.old) (S.left source.new) (S.faults source.old) (S.faults source.new) window.old window.new total.old total.new result }
    ensures room { length window.new ≤ 73728 }
    ensures missing { result ≢ More.Bytes → length window.new < wanted }
    ensures calm { result ≢ More.Failed → S.faults source.new ≡ S.faults source.old }
{
    while window.len() < wanted {
        match read_more(window, source, total) {
            More::Bytes => {}
            more => return more,
        }
    }
    More::Bytes
}

/// What reading on means for the session, where the bytes would end so.
fn end_of(more: More, at_end: SessionEnd) -> Option<SessionEnd>
    ensures { result ≡ end_after more at_end }
{
    match more {
        More::Bytes => None,
        More::End => Some(at_end),
        More::Failed => Some(SessionEnd::ReadFault),
        More::TooLong => Some(SessionEnd::TooLong),
    }
}

/// What a session keeps for itself.
#[derive(Drop)]
pub(crate) struct Desk {
    pub window: Window,
    pub room: Room,
    pub total: u64,
    pub answered: u64,
}

impl Desk {
    /// Takes all the room that the session needs for itself.
    pub fn new(alloc: Global) -> Result<Desk, AllocError>
        ensures window { IfOk result (λ desk. desk.window ≡ []) }
        ensures total { IfOk result (λ desk. desk.total ≡ 0) }
        ensures answered { IfOk result (λ desk. desk.answered ≡ 0) }
    {
        Ok(Desk {
            window: Window::new(alloc)?,
            room: Room::new(alloc)?,
            total: 0,
            answered: 0,
        })
    }

    /// Does what the bytes at the front ask for: answers a request, refuses a head, or reads on.
    pub fn turn<H: Handler, S: Source, K: Sink, C: Clock>(
        &mut self,
        alloc: Global,
        handler: &mut H,
        source: &mut S,
        sink: &mut K,
        clock: &mut C,
        mode: ClockMode,
    ) -> Option<SessionEnd>
        requires most { self.old.total ≤ MOST_BYTES }
        requires few { self.old.answered + length self.old.window ≤ self.old.total }
        ensures most { self.new.total ≤ MOST_BYTES }
        ensures few { IfNone result (self.new.answered + length self.new.window ≤ self.new.total) }
        ensures smaller { IfNone result
            (2 * (MOST_BYTES - self.new.total) + length self.new.window < 2 * (MOST_BYTES - self.old.total) + length self.old.window) }
        ensures clock { mode ≡ ClockMode.Leave → clock.new ≡ clock.old }
        ensures calm { result ≢ Some SessionEnd.ReadFault → S.faults source.new ≡ S.faults source.old }
        ensures calm_sink { result ≢ Some SessionEnd.WriteFault → K.faults sink.new ≡ K.faults sink.old }
        ensures turn { (start : _)
            → Progress H.asks H.after_gives mode start
            (state_of handler.old (S.left source.old) (S.faults source.old) (K.taken sink.old) (K.faults sink.old) (C.moments clock.old))
            self.old.window self.old.total self.old.answered
            → Continues H.asks H.asks_cut H.after_gives H.after_cut mode start
            (state_of handler.new (S.left source.new) (S.faults source.new) (K.taken sink.new) (K.faults sink.new) (C.moments clock.new))
            self.new.window self.new.total self.new.answered result }
        ensures pieces { (start : _)
            → Progress (AsksInPieces H.asks K.writes) (WorksInPieces H.after_gives) mode start
            (with_sink (state_of handler.old (S.left source.old) (S.faults source.old) (K.taken sink.old) (K.faults sink.old) (C.moments clock.old)) sink.old true)
            self.old.window self.old.total self.old.answered
            → ContinuesInPieces H.asks H.asks_cut H.after_gives H.after_cut K.writes mode start
            (state_of handler.new (S.left source.new) (S.faults source.new) (K.taken sink.new) (K.faults sink.new) (C.moments clock.new)) sink.new
            self.new.window self.new.total self.new.answered result }
    {
        match read_next(self.window.held()) {
            Next::Whole(found) => serve_one(
                alloc,
                handler,
                &mut self.window,
                found,
                &mut self.room,
                sink,
                clock,
                mode,
                &mut self.answered,
            ),
            Next::Bad(fault) => {
                if send_fault(&mut self.room, sink, fault) {
                    Some(SessionEnd::Bad(fault))
                } else {
                    Some(SessionEnd::WriteFault)
                }
            }
            Next::Clean => {
                let more = read_more(&mut self.window, source, &mut self.total);
                end_of(more, SessionEnd::Clean)
            }
            Next::Cut => {
                let more = read_more(&mut self.window, source, &mut self.total);
                end_of(more, SessionEnd::Cut)
            }
            Next::Awaits(wanted) => {
                let more = read_until(&mut self.window, source, &mut self.total, wanted);
                end_of(more, SessionEnd::Cut)
            }
        }
    }
}
