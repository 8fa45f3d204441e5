//! The texts of objects, of lists and of polls, written straight from what is stored: the same bytes as are written
//! of the JSON value that shows it, without that value.
//!
//! Out of memory is the one free answer of each call.
#![tactic(auto)]

mod fields;
mod labels;
mod lists;
mod metadata;
mod objects;
mod places;
mod pods;
mod polls;
mod statuses;
mod tables;
mod targets;
mod templates;
mod text;
mod values;

pub use lists::write_list;
pub use objects::write_object;
pub use polls::write_poll;
