//! What a request comes to: the replies of the API, the reasons to refuse a request, and a reply with the write that
//! goes with it.
//!
//! A reply's body is the compact text of a JSON value. Whatever takes memory answers a `Result`.
#![tactic(auto)]

mod outcome;
mod refusal;
mod replies;

pub use outcome::{Outcome, reply_to_call};
pub use refusal::Refusal;
pub use replies::{failed, path_refused, refused, removed, reply_in_bytes, reply_of, shown};
