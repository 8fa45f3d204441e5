//! What the Revision controller plans: the removal of a Revision whose owner is gone and that is free, or its status.
//!
//! `RevisionRec` plans the first difference that its look finds, and of that look alone, however much is written since.
#![tactic(auto)]

mod health;
mod revision;
mod statuses;

pub use revision::RevisionRec;
