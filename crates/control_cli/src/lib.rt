//! The command: it reads its words, runs what they ask for over a world, and answers how that ended.
#![tactic(auto)]

mod check;
mod command;
mod drill;
mod export;
mod pick;
mod replay;
mod serve;
mod status;

pub use command::run;
pub use status::Status;
