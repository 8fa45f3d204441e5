//! The adapters, over the system.
ghost use Rattle.std.specs.Prelude.{◌<◌, ◌≤◌, length};

use crate::clock::SystemClock;
use crate::ends::{TcpSink, TcpSource};
use crate::gate::TcpGate;
use json_tree::Text;
use serve_io::{Clock, Gate, Listened, Next, ReadAnswer, Sink, Source, WriteAnswer};
use std::io::{Read, Write};
use std::net::{Net, Shutdown, SocketAddr, TcpListener, TcpStream};
use std::test::Fail;
use std::{io, time};

#[test]
fn clock_is_past_2025(rt: HostRuntime) {
    let mut clock = SystemClock::new(&rt);
    let first = clock.now();
    assert!(rt; first > 1_735_689_600);
    assert!(rt; clock.now() >= first);
}

// Reads what the peer sent, to its end, and answers.
fn answers(input: &mut TcpSource, output: &mut TcpSink) -> bool {
    let mut room = [0_u8; 8];
    input.read(&mut room) == ReadAnswer::Got(4)
        && &room[..4] == b"ping".as_slice()
        && input.read(&mut room) == ReadAnswer::End
        && output.write(b"pong") == WriteAnswer::Took(4)
}

// A peer of a gate sends, is answered, and sees the end, one step after another.
fn serves_a_peer<R>(rt: &R, at: SocketAddr, address: &Text) -> io::Result<bool>
where
    R: Net<Listener = TcpListener, Stream = TcpStream> + time::Clock,
    requires some { 0 < length address.now }
    requires short { length address.now ≤ 255 }
{
    let mut gate = TcpGate::new(rt);
    match gate.listen(address) {
        Listened::Ready => {}
        Listened::Failed => return Ok(false),
    }
    let mut peer = TcpStream::connect(rt, at)?;
    peer.write_all(b"ping")?;
    peer.shutdown(Shutdown::Write)?;
    let answered = match gate.next() {
        Next::Connection {
            mut input,
            mut output,
        } => {
            let answered = answers(&mut input, &mut output);
            gate.done(input, output);
            answered
        }
        _ => false,
    };
    let mut room = [0_u8; 8];
    let got = peer.read(&mut room)?;
    Ok(answered && got == 4 && &room[..4] == b"pong".as_slice() && peer.read(&mut room)? == 0)
}

// An address of the loopback at which nothing listens.
fn free_address<R>(rt: &R) -> io::Result<SocketAddr>
where
    R: Net<Listener = TcpListener, Stream = TcpStream>,
{
    TcpListener::bind(rt, "127.0.0.1:0")?.local_addr()
}

#[test]
fn gate_serves_over_loopback(rt: HostRuntime) -> Result<(), Fail> {
    let at = free_address(&rt)?;
    let text = format!(in rt.alloc(); "{at}")?;
    assert!(rt; !text.is_empty() && text.len() <= 255);
    let address = Text::new(rt.alloc(), text.as_str())?;
    assert!(rt; serves_a_peer(&rt, at, &address)?);
    Ok(())
}

#[test]
fn gate_refuses_an_address_without_port(rt: HostRuntime) -> Result<(), Fail> {
    let address = Text::new(rt.alloc(), "127.0.0.1")?;
    let mut gate = TcpGate::new(&rt);
    assert_eq!(rt; gate.listen(&address), Listened::Failed);
    Ok(())
}
