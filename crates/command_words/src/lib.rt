//! The words of the command line.
//!
//! The first word names the command, and the words behind it are read by clap as those of one simple command.
#![tactic(auto)]

mod command;
mod options;
mod picking;
mod serving;
mod settings;

pub use command::{Command, WordsError, read_command};
pub use picking::Picking;
pub use serving::Serving;
pub use settings::Options;
