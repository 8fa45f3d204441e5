//! Trials of runs and of a served gate over ends in memory of which some calls fail: what was written, how it ended, and how long
//! the journal is.
#![tactic(auto)]

#[cfg(test)]
mod tests;
