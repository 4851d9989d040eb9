//! Where bytes come from and go to: sources and sinks as traits, both in memory, and calls that read a source to its
//! end and write a text whole.
//!
//! A source or a sink may tell its bytes to proofs or keep them to itself, as a terminal does. Each counts its faults,
//! and answers [`Failed`] only where that count rose in the call.
#![tactic(auto)]

mod memory;
mod outside;
mod whole;

pub use memory::{MemSink, MemSource};
pub use outside::{Failed, Sink, Source};
pub use whole::{ReadFail, read_all, write_all};
