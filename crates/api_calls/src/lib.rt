//! What each call of a client comes to, over the store as it stands at a moment: the first reason to refuse it, or its
//! reply and perhaps a write.
//!
//! Nothing is changed here: a write is a plan, which the API server makes once the whole reply is there.
#![tactic(auto)]

mod agreement;
mod create;
mod lookups;
mod manifests;
mod patch;
mod reads;
mod remove;
mod replace;

pub use create::creating;
pub use patch::patching;
pub use reads::{listing, polling, reading};
pub use remove::removing;
pub use replace::replacing;
