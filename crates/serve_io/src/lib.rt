//! What a program reads, writes, asks for the time and serves: sources, sinks, clocks and gates, each with its meaning, its
//! conditions and its count of faults. Beside the traits stand forms in memory, and adapters of std's readers and writers.
#![tactic(auto)]

mod calls;
mod clock;
mod connections;
mod gate;
mod mem_gate;
mod mem_sink;
mod mem_source;
mod sink;
mod source;
mod std_ends;
mod sure;
mod whole;

pub use clock::{Clock, LAST_MOMENT, MemClock};
pub use gate::{Gate, Listened, Next};
pub use mem_gate::MemGate;
pub use mem_sink::MemSink;
pub use mem_source::MemSource;
pub use sink::{Sink, WriteAnswer};
pub use source::{ReadAnswer, Source};
pub use std_ends::{ReadSource, WriteSink};
pub use sure::{SureGate, SureSink, SureSource};
pub use whole::write_whole;
