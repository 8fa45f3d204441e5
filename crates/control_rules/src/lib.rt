//! What is due to each object of the control plane: the rules that the five controllers, their steps and their turns
//! follow, as definitions.
//!
//! The crate has no calls. Its definitions say
//!
//! - what a controller writes next to a name, by the objects that stand (`Next`), and what it reads for that: what the
//!   targets of a Route come to (`Resolution`), which Revision is collected (`Collection`), each kind's status
//!   (`Statuses`, `TrafficStatuses`, `Readings`);
//! - what a plane is, and what each of its events does to it (`Slots`, `Steps`, `Turns`, `Events`);
//! - which journals may come about (`Lawful`), and what is promised of them: that each position is safe (`Safe`), that
//!   times tell when a condition changed (`Times`), that a state in which nothing is due (`Quiet`) is the final one
//!   (`Final`), and what carries the proofs of these (`Facts`, `FurtherFacts`).
//!
//! The crates of the controllers have the calls, and their contracts cite these definitions; the crates of lemmas prove
//! what follows from them. Neither knows the other. The types here are those that the definitions need.
#![tactic(auto)]

mod collection;
mod settings;
mod slots;
mod traffic;

pub use collection::Candidate;
pub use settings::{GcSettings, Settings};
pub use slots::{Report, Slot, StepOutcome};
pub use traffic::{Found, Named, Resolved};
