//! The set of touched keys: the keys to which something may be due.
//!
//! What an entry touches is read of the entry, of what stood under its key before it, and of what stands now. Entries are
//! taken into the set some time after they were made, and till then whether they touch a key is asked of each of them. So
//! an entry costs no memory when it is made.
//!
//! - Whether a key is touched takes no memory.
//! - A key that isn't touched has nothing due, in the present state and at the present moment.
//! - To take entries in changes the set and not which keys are touched; where memory runs out neither changes.
#![tactic(auto)]

mod changes;
mod intake;
mod marking;
mod marks;
mod names;
mod readers;
mod targets;
mod touches;

pub use marks::{Mark, Marks};
