//! Bytes in and bytes out: sources and sinks that count their faults, in memory and over std's readers and writers;
//! reading a whole input and writing a whole output; the gate before a call.
//!
//! The main calls are `read_all` and `write_all`.
//!
//! Proved: `read_all` answers all bytes to the end, or `TooLong` exactly where more came than the limit, or a fault
//! that rose in the call, and it takes at most one byte more than its limit. `write_all` writes all, or a front and
//! reports a fault that rose. The sources and sinks in memory fail exactly at the calls that were listed for them.
//!
//! Not proved: that standard input and output pass the real bytes, and that a write is flushed.
#![tactic(auto)]

mod front;
mod gate;
mod memory;
mod outside;
mod sink;
mod source;
mod sure;
mod whole;

pub use gate::{Gate, OpenGate};
pub use memory::{MemSink, MemSource};
pub use outside::{StdSink, StdSource};
pub use sink::{Put, Sink};
pub use source::{Got, Source};
pub use sure::{SureSink, SureSource};
pub use whole::{ReadError, WriteFault, read_all, write_all};
