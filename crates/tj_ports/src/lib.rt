//! The outside of the program: where bytes come from, where they go, and the gate before each
//! turn of a worker.
#![tactic(auto)]

mod calls;
mod failed;
mod gate;
mod memory_sink;
mod memory_source;
mod sink;
mod source;
mod standard;

pub use failed::Failed;
pub use gate::{Gate, OpenGate};
pub use memory_sink::MemSink;
pub use memory_source::MemSource;
pub use sink::{Sink, put_all};
pub use source::{ReadEnd, ReadFault, Source, read_all};
pub use standard::{StdSink, StdSource};
