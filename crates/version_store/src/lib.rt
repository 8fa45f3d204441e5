//! The versioned store: optimistic, generic in its items, and seen as its journal.
//!
//! Every answer of a [`Store`] is a function of the journal that it keeps: the list of all that was written. Beside the
//! journal it keeps an index, which no contract mentions, so that a look-up of what stands doesn't scan it, and a walk
//! over objects whose keys stand next to each other costs one search. The module [`plain`] has answers of a store as
//! scans of the journal. The trait [`Reconciler`] is the law of a controller that looks at a store and plans one write.
#![tactic(auto)]

mod cut;
mod decide;
mod index;
mod item;
pub mod plain;
mod reconciler;
mod store;
mod walk;
mod write;

pub use item::{Item, SearchKey, Span, Stamp};
pub use reconciler::Reconciler;
pub use store::Store;
pub use walk::Walk;
pub use write::{Applied, Change, Entry, Expect, Plan, Write};
