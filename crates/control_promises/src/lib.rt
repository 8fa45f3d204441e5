//! Every plane that comes about keeps the promises: it is safe at every position, settles soon, and settles in the final
//! state.
//!
//! The crate has no calls: it joins what `control_entries`, `control_safety`, `control_quiet` and `control_settle`
//! prove (`Promised`), for a test of manifests that keeps the laws of good ones.
#![tactic(auto)]
