//! The export of a journal: the requests of a source are answered over a world, and what was written is told as text.
#![tactic(auto)]

mod command;

pub use command::{ExportEnd, export_requests};
