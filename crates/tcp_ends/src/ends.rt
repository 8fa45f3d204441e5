//! The two ends of a connection.
ghost use Rattle.std.specs.Prelude.{◌≡◌, None};
ghost use Rattle.serve_io.specs.Sink.{WritesThrough};
ghost use Rattle.tcp_ends.specs.Counts.{CountsRead};

use serve_io::{ReadAnswer, Sink, Source, WriteAnswer};
use std::io::{Read, Write};
use std::net::TcpStream;

/// What comes from the other side of a connection. It tells no byte. Its errors are counted, a read that waits too long among them.
#[derive(Drop)]
pub struct TcpSource {
    pub(crate) stream: TcpStream,
    faults: u64,
}

impl TcpSource {
    /// A source over a stream, with no fault yet.
    pub(crate) fn new(stream: TcpStream) -> TcpSource
        ensures { result ≡ record { stream = stream; faults = 0 } }
    {
        TcpSource { stream, faults: 0 }
    }
}

impl Source for TcpSource {
    ghost left = { λ _. None };

    ghost faults = { λ s. s.faults };

    ghost reads = { λ old room answer new. CountsRead old.faults answer new.faults };

    fn read(&mut self, room: &mut [u8]) -> ReadAnswer {
        match self.stream.read(room) {
            Ok(0) => ReadAnswer::End,
            Ok(count) => ReadAnswer::Got(count),
            Err(_) => {
                self.faults = self.faults.saturating_add(1);
                ReadAnswer::Failed
            }
        }
    }
}

/// What goes to the other side of a connection. It tells no byte. Its errors are counted, a write that waits too long and one that
/// takes nothing among them.
#[derive(Drop)]
pub struct TcpSink {
    pub(crate) stream: TcpStream,
    faults: u64,
}

impl TcpSink {
    /// A sink over a stream, with no fault yet.
    pub(crate) fn new(stream: TcpStream) -> TcpSink
        ensures { result ≡ record { stream = stream; faults = 0 } }
    {
        TcpSink { stream, faults: 0 }
    }
}

impl Sink for TcpSink {
    ghost taken = { λ _. None };

    ghost faults = { λ s. s.faults };

    ghost writes = { λ old piece answer new. WritesThrough None None old.faults new.faults piece answer };

    fn write(&mut self, piece: &[u8]) -> WriteAnswer {
        match self.stream.write(piece) {
            Ok(count) if count > 0 => WriteAnswer::Took(count),
            _ => {
                self.faults = self.faults.saturating_add(1);
                WriteAnswer::Failed
            }
        }
    }
}
