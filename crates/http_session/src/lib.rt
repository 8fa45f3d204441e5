//! An HTTP/1.x session: it reads requests from a source, however its reads cut them, hands each to a handler, and writes the
//! replies to a sink. The lengths of bodies are those of RFC 9112, section 6; limits and refusals are this project's own.
#![tactic(auto)]

mod answering;
mod block;
mod desk;
mod fault;
mod fields;
mod front;
mod handler;
mod head;
mod message;
mod report;
mod room;
mod sending;
mod serve;
mod stream;
mod window;

pub use handler::Handler;
pub use message::{Allow, Asked, Reply, Request};
pub use report::{ClockMode, HeadFault, SessionEnd, SessionReport};
pub use serve::session;
pub use stream::{Stream, StreamEnd, stream_of};
