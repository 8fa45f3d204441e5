//! A settle ends, and how soon.
//!
//! The crate has no calls: it proves that turns over a lawful journal come to rest, that a settle of a plane takes at
//! most 30 + 14 m turns where m objects stand at first, and so no more than each of the bounds of the rules, and that
//! no Table changes after the first 64 turns (`Settles`). What each turn brings nearer to rest is told in
//! `docs/SETTLE.md`.
#![tactic(auto)]
