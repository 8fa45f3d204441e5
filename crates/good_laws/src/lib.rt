//! What the API takes as a good manifest keeps the laws of good manifests, and whatever stands may be stored.
//!
//! The crate has no calls: it proves of the one test `is_good` of `manifest_intake` the laws on which the safety of the
//! control plane stands (`Theorems`), and that each object in a lawful journal can be written as text and shown
//! (`Stored`).
#![tactic(auto)]
