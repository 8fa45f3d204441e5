//! Trials of the crates that know no resource: that each call which takes memory succeeds where memory is ample, that the adapters
//! work over readers and writers of std, and values from outside for what no request shows.
#![tactic(auto)]

#[cfg(test)]
mod tests;
