//! What each control call comes to over a plane: reports, the clock, picked steps, settles, and the summary.
//!
//! A call is refused for the first reason that holds, and then changes nothing. Its reply is prepared before anything is
//! changed, so a want of memory changes nothing either, save that a settle keeps the writes that were made before it.
#![tactic(auto)]

mod bodies;
mod clock;
mod refusal;
mod reports;
mod room;
mod settles;
mod steps;
mod summary;

pub use bodies::{ControlCall, hear};
pub use refusal::ControlRefusal;
pub use settles::settling;
pub use summary::{Summary, summary_of, summing};
