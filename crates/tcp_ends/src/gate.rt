//! A gate at a TCP address.
ghost use Rattle.std.specs.Prelude.{◌≡◌, None, is_some};
ghost use Rattle.tcp_ends.specs.Counts.{CountsListen, CountsNext};

use crate::closing::close_gently;
use crate::ends::{TcpSink, TcpSource};
use json_tree::Text;
use serve_io::{Gate, Listened, Next};
use std::io;
use std::net::{Net, TcpListener, TcpStream};
use std::time::{Clock, Duration};

/// How many seconds a read or a write of a connection waits at most.
const LONGEST_WAIT: u64 = 30;

/// How many connections that were gone before they could be taken are passed over, one behind another.
const MOST_GONE: u32 = 1_000;

/// A gate at a TCP address, as `127.0.0.1:8080` or `[::1]:8080`. It tells no connection, counts its errors, and always has one
/// connection out.
///
/// A connection's reads and writes wait for 30 seconds at most. What is written is sent at once. A connection that is handed back
/// is closed gently: what its peer still sends is read and dropped, up to 1 MiB and two seconds, so that the peer gets what was
/// sent to it last.
#[derive(Drop)]
pub struct TcpGate<'a, R> {
    rt: &'a R,
    listener: Option<TcpListener>,
    faults: u64,
}

impl<'a, R> TcpGate<'a, R> {
    /// A gate that doesn't listen yet.
    pub fn new(rt: &'a R) -> TcpGate<'a, R>
        ensures listener { result.listener ≡ None }
        ensures faults { result.faults ≡ 0 }
    {
        TcpGate {
            rt,
            listener: None,
            faults: 0,
        }
    }
}

/// The two ends of a connection, over two handles of its stream.
fn ends_of(stream: TcpStream) -> io::Result<(TcpSource, TcpSink)> {
    stream.set_nodelay(true)?;
    stream.set_read_timeout(Some(Duration::from_secs(LONGEST_WAIT)))?;
    stream.set_write_timeout(Some(Duration::from_secs(LONGEST_WAIT)))?;
    let other = stream.try_clone()?;
    Ok((TcpSource::new(stream), TcpSink::new(other)))
}

/// Whether an error is of a connection that was gone before it could be taken, and not of the listener.
fn is_gone(error: &io::Error) -> bool {
    matches!(
        error.kind(),
        io::ErrorKind::ConnectionAborted
            | io::ErrorKind::ConnectionReset
            | io::ErrorKind::HostUnreachable
            | io::ErrorKind::NetworkUnreachable
            | io::ErrorKind::Interrupted
    )
}

/// Waits for a connection.
fn accept(listener: &TcpListener) -> io::Result<TcpStream> {
    for _ in 0..MOST_GONE {
        match listener.accept() {
            Ok((stream, _)) => return Ok(stream),
            Err(error) if is_gone(&error) => {}
            Err(error) => return Err(error),
        }
    }
    Err(io::ErrorKind::ConnectionAborted.into())
}

/// Waits for a connection, and makes its ends.
fn next_ends(listener: &Option<TcpListener>) -> io::Result<(TcpSource, TcpSink)> {
    match listener {
        Some(listener) => ends_of(accept(listener)?),
        None => Err(io::ErrorKind::NotConnected.into()),
    }
}

impl<'a, R: Net<Listener = TcpListener, Stream = TcpStream> + Clock> Gate for TcpGate<'a, R> {
    type In = TcpSource;

    type Out = TcpSink;

    ghost coming = { λ _. None };

    ghost back = { λ _. None };

    ghost listening_at = { λ _. None };

    ghost listens = { λ g. is_some g.listener };

    ghost out = { λ _. 1 };

    ghost faults = { λ g. g.faults };

    ghost listened = { λ old answer new. CountsListen old.faults answer new.faults };

    ghost gave = { λ old answer new. CountsNext old.faults answer new.faults };

    ghost took = { λ old new. new ≡ old };

    fn listen(&mut self, address: &Text) -> Listened {
        match TcpListener::bind(self.rt, address.as_str()) {
            Ok(listener) => {
                self.listener = Some(listener);
                Listened::Ready
            }
            Err(_) => {
                self.faults = self.faults.saturating_add(1);
                Listened::Failed
            }
        }
    }

    fn next(&mut self) -> Next<TcpSource, TcpSink> {
        match next_ends(&self.listener) {
            Ok((input, output)) => Next::Connection { input, output },
            Err(_) => {
                self.faults = self.faults.saturating_add(1);
                Next::Failed
            }
        }
    }

    fn done(&mut self, input: TcpSource, output: TcpSink) {
        let mut stream = input.stream;
        // The connection is over whatever comes of this.
        let _ = close_gently(self.rt, &mut stream);
        drop(output);
    }
}
