//! The plane: a store, a clock and the slots of five controllers, and what each event does to them.
//!
//! A controller works in separate steps. A step of an idle slot looks, the next one plans from that look, and the third
//! writes that plan, whatever was written between; where what was looked at has changed since, the write is refused as
//! stale and the slot is idle again. Contracts see a [`Plane`] as the record of the rules, and say of each call that it is
//! the event of the rules. A plane keeps, whatever is called:
//!
//! - Its journal is lawful: each entry is one that its actor may make, and a controller's is what was due at its look.
//! - At each position of the journal the Tables are safe, and what an entry removes wasn't used.
//! - A turn that makes no entry leaves a quiet state, which is the final one; turns come to that, soon.
//! - To a key that isn't touched nothing is due. A report touches the Revision of its name, and a clock that moves touches
//!   Collectors. Turns look at touched keys alone, and no key is touched after a settle.
//! - After a call that was out of memory, the plane is as before; turns keep what they wrote before.
#![tactic(auto)]

mod controllers;
mod counts;
mod held;
mod passes;
mod plane;
mod refusals;
mod reports;
mod settings;
mod turn;
mod work;

pub use control_rules::{GcSettings, Report, Settings, Slot, StepOutcome};
pub use plane::Plane;
pub use refusals::{ClockBack, ReportError, SettingsKept};
pub use settings::standard_settings;
