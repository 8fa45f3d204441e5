//! Which Revision of a Configuration is collected, and when: the settings, the choice, and the controller of it.
//!
//! At most one Revision is chosen at a time, and its removal is guarded: it is refused once a Service or a Route was
//! made, or its spec changed, after the look. What reads settings and what chooses takes no memory.
#![tactic(auto)]

mod ages;
mod choice;
mod collector;
mod settings;

pub use choice::collect;
pub use collector::CollectorRec;
pub use control_rules::{Candidate, GcSettings};
pub use settings::{SettingsError, read_settings, standard_settings};

#[cfg(test)]
mod tests;
