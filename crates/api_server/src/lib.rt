//! The API server: a world that answers requests over the plane that it keeps.
//!
//! Each request finds the plane as it stands, and is refused for the first reason that holds, or gets its reply and makes what
//! its call comes to: a client's write, a report, a move of the clock, a step, a settle. What it found is noted as a mark. The
//! reply, the entry and the mark are prepared before anything is changed. Behind each reply the controllers make the automatic
//! steps that are set.
#![tactic(auto)]

mod mark;
mod requests;
mod world;

pub use mark::Mark;
pub use world::World;
