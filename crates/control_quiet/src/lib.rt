//! A quiet state is final.
//!
//! The crate has no calls: it proves that a state in which no controller has anything to write is the final one
//! (`Final`), that a turn that makes no entry leaves such a state (`Turns`), and so that a plane is in the final state
//! after each settle, where its Tables are safe (`Planes`); and that two settles of one plane are one (`Settles`).
#![tactic(auto)]
