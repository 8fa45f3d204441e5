//! The ends in memory are made, and the adapters work over readers and writers of std.
ghost use Rattle.std.specs.Prelude.{◌<◌, ◌≤◌, length};

use json_tree::Text;
use serve_io::{
    Clock, Gate, Listened, MemClock, MemGate, MemSink, MemSource, Next, ReadAnswer, ReadSource,
    Sink, Source, SureGate, SureSink, SureSource, WriteAnswer, WriteSink, write_whole,
};
use std::alloc::{AllocError, Global};
use std::io::{self, ErrorKind, Read, Write};
use std::test::Fail;

#[test]
fn adapter_reads(rt: HostRuntime) {
    let mut room = [0_u8; 4];
    let mut reader = ReadSource::new(b"hello".as_slice());
    assert_eq!(rt; reader.read(&mut room), ReadAnswer::Got(4));
    assert_eq!(rt; room[..4], *b"hell".as_slice());
    assert_eq!(rt; reader.read(&mut room), ReadAnswer::Got(1));
    assert_eq!(rt; reader.read(&mut room), ReadAnswer::End);
    let mut broken = ReadSource::new(Broken { calls: 0 });
    assert_eq!(rt; broken.read(&mut room), ReadAnswer::Failed);
}

#[test]
fn adapter_writes(rt: HostRuntime) {
    let mut writer = WriteSink::new(Vec::new(rt.alloc()));
    assert_eq!(rt; writer.write(b"abc"), WriteAnswer::Took(3));
    // The first call takes nothing, and the second is an error.
    let mut broken = WriteSink::new(Broken { calls: 0 });
    assert_eq!(rt; broken.write(b"abc"), WriteAnswer::Failed);
    assert_eq!(rt; broken.write(b"abc"), WriteAnswer::Failed);
}

#[test]
fn sink_takes_pieces(rt: HostRuntime) -> Result<(), Fail> {
    let mut sink = MemSink::new(rt.alloc(), 22, 10, Vec::new(rt.alloc()))?;
    assert!(rt; write_whole(&mut sink, b"HTTP/1.1 201 Created\r\n"));
    assert_eq!(rt; sink.bytes(), b"HTTP/1.1 201 Created\r\n".as_slice());
    Ok(())
}

#[test]
fn clock_repeats_the_last(rt: HostRuntime) -> Result<(), Fail> {
    let mut clock = MemClock::new(vec![in rt.alloc(); 5, 9]?);
    assert_eq!(rt; clock.now(), 5);
    assert_eq!(rt; clock.now(), 9);
    assert_eq!(rt; clock.now(), 9);
    Ok(())
}

// One connection.
fn connections(alloc: Global) -> Result<Vec<(MemSource, MemSink)>, AllocError> {
    let sink = MemSink::new(alloc, 9, 9, Vec::new(alloc))?;
    let source = MemSource::new(Vec::new(alloc), 9, Vec::new(alloc));
    Ok(vec![in alloc; (source, sink)]?)
}

// Listens, gives one connection, takes it back, and is closed.
fn gives_one(mut gate: MemGate, address: &Text) -> bool
    requires some { 0 < length address.now }
    requires short { length address.now ≤ 255 }
{
    match gate.listen(address) {
        Listened::Ready => {}
        Listened::Failed => return false,
    }
    match gate.next() {
        Next::Connection { input, output } => gate.done(input, output),
        _ => return false,
    }
    gate.back().len() == 1 && matches!(gate.next(), Next::Closed)
}

#[test]
fn gate_gives_in_order(rt: HostRuntime) -> Result<(), Fail> {
    let address = Text::new(rt.alloc(), "127.0.0.1:0")?;
    let connections = connections(rt.alloc())?;
    let gate = MemGate::new(rt.alloc(), connections, Vec::new(rt.alloc()))?;
    assert!(rt; gives_one(gate, &address));
    Ok(())
}

#[test]
fn sure_gate_is_made(rt: HostRuntime) -> Result<(), Fail> {
    let first = (SureSource::new(Vec::new(rt.alloc())), SureSink::new());
    let _gate = SureGate::new(rt.alloc(), vec![in rt.alloc(); first]?)?;
    Ok(())
}

// A reader and writer whose calls fail, and which takes nothing at first.
#[derive(Drop)]
struct Broken {
    calls: u8,
}

impl Read for Broken {
    fn read(&mut self, _buf: &mut [u8]) -> io::Result<usize> {
        Err(ErrorKind::Other.into())
    }
}

impl Write for Broken {
    fn write(&mut self, _buf: &[u8]) -> io::Result<usize> {
        if self.calls == 0 {
            self.calls = 1;
            return Ok(0);
        }
        Err(ErrorKind::Other.into())
    }

    fn flush(&mut self) -> io::Result<()> {
        Ok(())
    }
}
