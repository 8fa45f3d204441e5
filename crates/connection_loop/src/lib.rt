//! The control plane over a gate: one connection after another is taken, served by a session over the world, handed back and
//! told of by a line.
//!
//! The connections taken are the first of those to come, and each is handed back, in order, however its session ended. The
//! requests of each are answered over the world that the one before left, each at the later of the plane's moment and the clock's.
#![tactic(auto)]

mod lines;
mod options;
mod serving;

pub use options::ServeOptions;
pub use serving::{ServeEnd, serve};
