//! A large run from a number: the stream of requests that the number makes, and a drill, which runs that stream in memory and
//! says in seven lines what it came to.
//!
//! - The same number makes the same stream, byte for byte.
//! - The world that a drill leaves is the one that its requests lead to, one after another.
//! - A sink has the whole output, or a proper prefix of it where a write failed, or nothing where memory ran out.
#![tactic(auto)]

mod command;
mod lines;
mod numbers;
mod stream;
mod tally;
#[cfg(test)]
mod tests;
mod texts;

pub use command::{DrillEnd, drill, write_stream};
pub use stream::{MOST_SERVICES, generate};
