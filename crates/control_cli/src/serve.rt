//! The command `serve`.
ghost use Rattle.std.specs.Prelude.{◌≡◌, ◌≢◌, ◌<◌, ◌≤◌, length};
ghost use Rattle.connection_loop.specs.Sessions.{timed};
ghost use Rattle.connection_loop.specs.Serves.{serving, line_sink, RefusesSettings};
ghost use Rattle.control_cli.specs.Ends.{status_of_serve};
ghost use Rattle.control_cli.specs.Serves.{serve_options, ServeRuns};

use crate::status::Status;
use api_server::World;
use command_words::{Options, Serving};
use connection_loop::{ServeEnd, ServeOptions, serve};
use serve_io::{Clock, Gate, Sink};
use std::alloc::Global;

/// The status that stands for how serving ended.
fn status_of_serve(end: ServeEnd) -> Status
    ensures value { result ≡ status_of_serve end }
    ensures writes { result ≢ Status.WriteFault → end ≢ ServeEnd.WriteFault }
    ensures usage { result ≡ Status.Usage → end ≡ ServeEnd.Usage }
{
    match end {
        ServeEnd::Done => Status::Done,
        ServeEnd::Usage => Status::Usage,
        ServeEnd::GateFault => Status::GateFault,
        ServeEnd::WriteFault => Status::WriteFault,
        ServeEnd::Memory => Status::Memory,
    }
}

/// What is served, by the words.
fn serve_options(words: Serving) -> ServeOptions
    ensures { result ≡ serve_options words }
{
    let Serving {
        options,
        address,
        sessions,
    } = words;
    let Options { auto, settings } = options;
    ServeOptions {
        settings,
        auto,
        address,
        sessions,
    }
}

/// The gate listens at the address of the words, and its connections are served.
pub(crate) fn serve_gate<K: Sink, C: Clock, G: Gate>(
    alloc: Global,
    words: Serving,
    world: &mut World,
    sink: &mut K,
    clock: &mut C,
    gate: &mut G,
) -> Status
    requires some { 0 < length words.address }
    requires short { length words.address ≤ 255 }
    ensures leaves { ServeRuns words
        (serving (timed world.old (C.moments clock.old)) (G.coming gate.old) (G.back gate.old) (G.listening_at gate.old) (G.listens gate.old) (G.faults gate.old))
        (serving (timed world.new (C.moments clock.new)) (G.coming gate.new) (G.back gate.new) (G.listening_at gate.new) (G.listens gate.new) (G.faults gate.new))
        (line_sink (K.taken sink.old) (K.faults sink.old)) (line_sink (K.taken sink.new) (K.faults sink.new))
        result }
    ensures calm_sink { result ≢ Status.WriteFault → K.faults sink.new ≡ K.faults sink.old }
{
    status_of_serve(serve(alloc, serve_options(words), world, sink, clock, gate))
}
