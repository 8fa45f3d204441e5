//! Readers and writers of std as sources and sinks. They tell the bytes that std tells of what is inside: of a pipe or a file none,
//! of a slice or a list all.
ghost use Rattle.std.specs.Prelude.{◌≡◌};
ghost use Rattle.serve_io.specs.Sink.{WritesThrough};

use crate::sink::{Sink, WriteAnswer};
use crate::source::{ReadAnswer, Source};
use std::io::{Read, Write};

/// A reader of std. Its errors are counted.
#[derive(Debug, Drop)]
pub struct ReadSource<R> {
    inner: R,
    faults: u64,
}

impl<R> ReadSource<R> {
    /// A source over a reader, with no fault yet.
    pub fn new(inner: R) -> ReadSource<R>
        ensures { result ≡ record { inner = inner; faults = 0 } }
    {
        ReadSource { inner, faults: 0 }
    }
}

impl<R: Read> Source for ReadSource<R> {
    ghost left = { λ s. R.remaining s.inner };

    ghost faults = { λ s. s.faults };

    fn read(&mut self, room: &mut [u8]) -> ReadAnswer {
        match self.inner.read(room) {
            Ok(0) => ReadAnswer::End,
            Ok(count) => ReadAnswer::Got(count),
            Err(_) => {
                self.faults = self.faults.saturating_add(1);
                ReadAnswer::Failed
            }
        }
    }
}

/// A writer of std. Its errors are counted, and so is a write that takes nothing.
#[derive(Debug, Drop)]
pub struct WriteSink<W> {
    inner: W,
    faults: u64,
}

impl<W> WriteSink<W> {
    /// A sink over a writer, with no fault yet.
    pub fn new(inner: W) -> WriteSink<W>
        ensures { result ≡ record { inner = inner; faults = 0 } }
    {
        WriteSink { inner, faults: 0 }
    }
}

impl<W: Write> Sink for WriteSink<W> {
    ghost taken = { λ s. W.contents s.inner };

    ghost faults = { λ s. s.faults };

    ghost writes = { λ old piece answer new. WritesThrough (W.contents old.inner) (W.contents new.inner) old.faults new.faults piece answer };

    fn write(&mut self, piece: &[u8]) -> WriteAnswer {
        match self.inner.write(piece) {
            Ok(count) if count > 0 => WriteAnswer::Took(count),
            _ => {
                self.faults = self.faults.saturating_add(1);
                WriteAnswer::Failed
            }
        }
    }
}
