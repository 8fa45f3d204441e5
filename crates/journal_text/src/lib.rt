//! A journal as text: what a plane was set to and all that was written, one line each.
//!
//! [`export`] gives the text of a plane. Its first line has the settings and the moment; each further one is an entry of the
//! journal, in their order: what a client put or removed, what a reporter told, or the look from which a controller wrote.
#![tactic(auto)]

mod entries;
mod exporting;
mod header;
mod members;
mod puts;
mod texts;
mod words;

pub use entries::{asking_line, look_line, removal_line, report_line};
pub use exporting::export;
pub use header::header_line;
pub use puts::manifest_text;
pub use texts::entry_line;
