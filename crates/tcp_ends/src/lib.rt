//! The system's clock, and connections over TCP, as a clock and a gate that a program serves from.
#![tactic(auto)]

mod clock;
mod closing;
mod ends;
mod gate;
#[cfg(test)]
mod tests;

pub use clock::SystemClock;
pub use ends::{TcpSink, TcpSource};
pub use gate::TcpGate;
