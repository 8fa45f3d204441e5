//! Closing a connection gently. A peer to which its last bytes were sent while it was still sending would lose them if its connection
//! were closed at once, since the system then resets it: so what it sends is read and dropped for a while.

use std::io;
use std::io::Read;
use std::net::{Shutdown, TcpStream};
use std::time::{Clock, Duration, Instant};

/// How many bytes are dropped at most.
const MOST_DROPPED: usize = 1_048_576;

/// For how many seconds a connection is kept for that at most.
const LONGEST: u64 = 2;

/// Reads some bytes that the peer still sends, and drops them. 0 where it sends no more, or the time since the start is over.
fn drop_some<R: Clock>(
    rt: &R,
    stream: &mut TcpStream,
    start: Instant,
    room: &mut [u8],
) -> io::Result<usize> {
    let Some(left) = Duration::from_secs(LONGEST).checked_sub(start.elapsed(rt)?) else {
        return Ok(0);
    };
    stream.set_read_timeout(Some(left))?;
    stream.read(room)
}

/// Ends the sending side, and drops what the peer still sends.
pub(crate) fn close_gently<R: Clock>(rt: &R, stream: &mut TcpStream) -> io::Result<()> {
    stream.shutdown(Shutdown::Write)?;
    let start = Instant::now(rt)?;
    let mut room = [0; 4096];
    let mut left = MOST_DROPPED;
    while left > 0 {
        let count = drop_some(rt, stream, start, &mut room)?;
        if count == 0 {
            break;
        }
        left = left.saturating_sub(count);
    }
    Ok(())
}
