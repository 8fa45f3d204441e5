//! What the bodies of control calls say: a report, the moment of a clock, the key of a step, or the first field that is wrong.
//!
//! A body is an object, and members that are no fields are dropped. A null counts as absent. An empty `reason`, `message` or
//! `namespace` counts as absent too; an absent namespace is `default`.
#![tactic(auto)]

mod clock;
mod fields;
mod reading;
mod reports;
mod steps;

pub use clock::read_clock;
pub use fields::{Field, PartField, Side, path_text};
pub use reports::read_report;
pub use steps::read_step;
