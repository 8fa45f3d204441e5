//! Every position of a lawful journal is safe.
//!
//! The crate has no calls: it proves of each lawful journal that whatever a Table names stands, pinned, and was
//! reported ready, and that its rows divide the traffic (`Safety`); that only unused Revisions are removed, and the
//! latest ones don't fall back (`Unused`); that each condition tells since when it has its truth (`Times`); and the
//! facts that carry these, each under a name of its own (`Theorems`). What each controller's order is for is told in
//! `docs/SAFETY.md`.
#![tactic(auto)]
