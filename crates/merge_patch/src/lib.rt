//! JSON Merge Patch (RFC 7396): a JSON value, changed as a patch says.
#![tactic(auto)]

mod patch;
mod taken;

pub use patch::merge;

#[cfg(test)]
mod tests;
