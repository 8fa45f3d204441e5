//! A gateway on the command line: it follows the polls that a source gives, one a line, and writes to a sink which Revision each
//! of some numbers picks for a host.
#![tactic(auto)]

mod command;
mod following;
mod input;
mod text;

pub use command::{PickEnd, pick};
