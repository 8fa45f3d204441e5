//! The check of a single manifest: its bytes are read from a source, and what comes of them goes to a sink as one line.
//! A good manifest is shown with its defaults, and any other is refused for its first fault.
#![tactic(auto)]

mod command;
mod input;
mod lines;

pub use command::{CheckEnd, check};
