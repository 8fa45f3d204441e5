//! What the Configuration controller plans: the removal of a Configuration whose owner is gone, the Revision that it lacks,
//! or its status.
//!
//! `ConfigurationRec` plans the first difference that its look finds, and of that look alone, however much is written
//! since. A Revision is made with its template's labels and annotations, but for the three that are shown of pins.
#![tactic(auto)]

mod configuration;
mod revisions;
mod statuses;

pub use configuration::ConfigurationRec;
