//! Conditions of a status: their fold to `Ready`, and the moments at which their truths changed.
#![tactic(auto)]

mod ready;
mod times;

pub use ready::{fold, fold_truth};
pub use times::settle_times;

#[cfg(test)]
mod tests;
