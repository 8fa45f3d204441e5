//! Tables of rows in order of key, and the slots of controllers that hold something between two steps.
//!
//! Of each key there is at most one row, which is found by a binary search. To find, to change and to take out a row takes
//! no memory. To put one in may, and the table is then as before where there is none.
//!
//! The slots of controllers are such a table: it has a row for each key whose slot isn't idle. A list of keys in order, each
//! once, is another.
#![tactic(auto)]

mod rows;
mod search;
mod table;

pub use rows::{Keyed, Slot};
pub use table::SlotTable;

#[cfg(test)]
mod tests;
