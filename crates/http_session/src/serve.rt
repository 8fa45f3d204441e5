//! A whole session.
ghost use Rattle.std.specs.Prelude.{◌≡◌, ◌≢◌, IfOk, [], true};
ghost use Rattle.http_session.specs.Session.{Finishes, state_of};
ghost use Rattle.http_session.specs.Pieces.{HandsOver, FinishesInPieces, with_sink};

use crate::desk::Desk;
use crate::handler::Handler;
use crate::report::{ClockMode, SessionEnd, SessionReport};
use serve_io::{Clock, Sink, Source};
use std::alloc::Global;

/// Serves the requests of a source until its end, a fault, a bad head or a request that asks for close.
///
/// The handler gets the requests of the stream in order and no others, however the reads cut it, in mode `Ask` each with the
/// clock's next moment. What it answers is written to the sink, its head and after that its body, each call of `write` being
/// given the whole rest, and then it does its own work. At most 73,728 bytes of input are held. A read that fails ends the session
/// with `ReadFault`, and a write that fails with `WriteFault`; neither is tried again.
pub fn session<H: Handler, S: Source, K: Sink, C: Clock>(
    alloc: Global,
    handler: &mut H,
    source: &mut S,
    sink: &mut K,
    clock: &mut C,
    mode: ClockMode,
) -> SessionReport
    ensures finishes { Finishes H.asks H.asks_cut H.after_gives H.after_cut mode
        (state_of handler.old (S.left source.old) (S.faults source.old) (K.taken sink.old) (K.faults sink.old) (C.moments clock.old))
        (state_of handler.new (S.left source.new) (S.faults source.new) (K.taken sink.new) (K.faults sink.new) (C.moments clock.new))
        result.answered result.end }
    ensures pieces { HandsOver K.writes sink.old sink.new result.answered result.end }
    ensures exchanges { FinishesInPieces H.asks H.asks_cut H.after_gives H.after_cut K.writes mode
        (with_sink (state_of handler.old (S.left source.old) (S.faults source.old) (K.taken sink.old) (K.faults sink.old) (C.moments clock.old)) sink.old true)
        (state_of handler.new (S.left source.new) (S.faults source.new) (K.taken sink.new) (K.faults sink.new) (C.moments clock.new)) sink.new
        result.answered result.end }
    ensures clock { mode ≡ ClockMode.Leave → clock.new ≡ clock.old }
    ensures calm { result.end ≢ SessionEnd.ReadFault → S.faults source.new ≡ S.faults source.old }
    ensures calm_sink { result.end ≢ SessionEnd.WriteFault → K.faults sink.new ≡ K.faults sink.old }
{
    let Ok(mut desk) = Desk::new(alloc) else {
        return SessionReport {
            end: SessionEnd::Memory,
            answered: 0,
        };
    };
    loop {
        if let Some(end) = desk.turn(alloc, handler, source, sink, clock, mode) {
            return SessionReport {
                end,
                answered: desk.answered,
            };
        }
    }
}
