//! The outside of the arbiter: where bytes come from, where they go, and the gate at which workers report.
//!
//! A source and a sink count their faults, so a caller can promise that it answers a fault only where one happened.
//!
//! `fp_edge` is the outside: `source.rt`, `sink.rt` and `gate.rt` are the traits, `memory.rt` has a source and a sink in memory
//! that fail where they are told to, `standard.rt` adapts std's readers and writers. To change what a fault is, begin in
//! `specs/Faults.antt`.
#![tactic(auto)]

mod gate;
mod memory;
mod sink;
mod source;
mod standard;

pub use gate::{Gate, OpenGate};
pub use memory::{MemSink, MemSource};
pub use no_memory::NoMemory;
pub use sink::Sink;
pub use source::{Failed, Source};
pub use standard::{StdSink, StdSource};

#[cfg(test)]
mod tests;
