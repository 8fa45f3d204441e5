//! Taking a manifest in: a body is read, its shape, what it must match and its rules are examined in this order, and
//! defaults fill it; or it is refused for the first reason that holds.
//!
//! The API server and the check of a single manifest examine by the same calls.
#![tactic(auto)]

mod body;
mod intake;
mod matching;
mod refusal;
mod single;

pub use body::read_body;
pub use intake::accept;
pub use matching::Purpose;
pub use refusal::{ManifestRefusal, Part};
pub use single::check_body;
