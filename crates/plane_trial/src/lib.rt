//! Trials of the plane and of its controllers: sequences of events with the answer that each must have, and what a
//! controller plans behind each of them.
//!
//! A client's call is made as the API server makes it, so a sequence begins with an empty plane and needs no condition.
#![tactic(auto)]

#[cfg(test)]
mod clients;
#[cfg(test)]
mod events;
#[cfg(test)]
mod plans;
#[cfg(test)]
mod tests;
