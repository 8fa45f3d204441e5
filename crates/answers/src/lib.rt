//! What it is to be refused, or out of memory: the answer of a call that may be both.
//!
//! A caller learns why it was refused exactly, by the relation `Comes`; that a call is out of memory is free.
#![tactic(auto)]

mod stop;

pub use stop::{Stop, require};
