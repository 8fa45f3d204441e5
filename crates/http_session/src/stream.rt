//! The stream of a whole list of bytes, read at once: plain and slow, beside the session.
ghost use Rattle.std.specs.Prelude.{◌≡◌, List, ℕ, IfOk, IfErr};
ghost use Rattle.http_session.specs.Front.{front_of};
ghost use Rattle.http_session.specs.Stream.{IsFront, EndsAs, IsStream};

use crate::answering::copy_request;
use crate::front::{Found, Next, read_next};
use crate::message::Asked;
use crate::report::HeadFault;
use json_tree::Seq;
use std::alloc::{AllocError, Global};

/// How a stream of requests ends.
#[derive(Clone, Copy, Debug, PartialEq, Eq)]
pub enum StreamEnd {
    /// Behind a whole request or before any, empty lines aside.
    Clean,
    /// With a request that asks for close; what is left isn't looked at.
    Closed,
    /// Inside a request.
    Cut,
    /// With a head that is refused.
    Bad(HeadFault),
}

/// The requests of some bytes, in order, and how they end.
#[derive(Debug, Drop)]
pub struct Stream {
    /// The requests that are whole.
    pub requests: Seq<Asked>,
    /// What stands behind them.
    pub end: StreamEnd,
}

/// The whole request at the front, or else the end of a stream that goes on so.
fn whole_or_end(next: Next) -> Result<Found, StreamEnd>
    ensures whole { IfOk result (λ found. next ≡ Next.Whole found) }
    ensures end { IfErr result (λ end. (bytes : List ℕ) → IsFront bytes (front_of bytes next) → EndsAs bytes end) }
{
    match next {
        Next::Whole(found) => Ok(found),
        Next::Bad(fault) => Err(StreamEnd::Bad(fault)),
        Next::Clean => Err(StreamEnd::Clean),
        Next::Cut => Err(StreamEnd::Cut),
        Next::Awaits(_) => Err(StreamEnd::Cut),
    }
}

/// Reads all the requests of the bytes.
pub fn stream_of(alloc: Global, bytes: &[u8]) -> Result<Stream, AllocError>
    ensures { IfOk result (λ stream. IsStream bytes.now stream.requests stream.end) }
{
    let mut requests = Seq::new(alloc);
    let mut rest = bytes;
    loop {
        let found = match whole_or_end(read_next(rest)) {
            Ok(found) => found,
            Err(end) => return Ok(Stream { requests, end }),
        };
        let request = copy_request(alloc, rest, found)?;
        let closes = found.read.closes;
        requests.push(Asked { request, closes })?;
        if closes {
            return Ok(Stream {
                requests,
                end: StreamEnd::Closed,
            });
        }
        rest = &rest[found.end..];
    }
}
