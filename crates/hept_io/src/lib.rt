//! The outside: where bytes come from and go to, and how they are cut into lines.
#![tactic(auto)]

mod adapters;
mod ahead;
mod laws;
mod lines;
mod memory;
mod outside;

pub use adapters::{DiskStore, StdSink, StdSource};
pub use laws::line_laws;
pub use lines::{LineFault, LineReader};
pub use memory::{MemorySink, MemorySource, MemoryStore, OpenGate};
pub use outside::{Failed, Gate, Memory, Sink, Source, Store, StoreFault};
