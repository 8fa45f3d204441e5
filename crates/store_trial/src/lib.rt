//! A small item, a reconciler and an item that counts comparisons, to try the versioned store on.
#![tactic(auto)]

pub mod copier;
pub mod counted;
#[cfg(test)]
mod tests;
pub mod thing;
