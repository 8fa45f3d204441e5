//! What a line of a journal's text says: the settings and the moment of a header, or who did what.
//!
//! [`read_header`] and [`read_line`] read a line without its line feed. What they read is what the line says, byte for byte, and
//! where they read nothing no header, or no entry that may stand in a journal, has the line.
#![tactic(auto)]

mod deeds;
mod error;
mod headers;
mod lines;
mod members;
mod puts;
mod said;
mod words;

pub use deeds::{Deed, Line};
pub use headers::{Header, read_header};
pub use lines::read_line;
