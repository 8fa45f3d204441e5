//! What a client reads that gets no object: a Status, of failure or of success.
#![tactic(auto)]

mod status;

pub use status::{failure, success};
