//! Serving lines: a line in, its answer out, and no byte after a line is asked for before its answer was written.
//!
//! `serve` answers line after line of a source by a `Service` and writes the answers to a sink; `serve_next` does one line.
//! A `LineReader` cuts what a source gives into lines.
//!
//! Proved: what was taken from the source is the lines with their LFs and what is there now; what was written is what the service
//! may answer to each line in order; each read was made while no whole line was there; each way to end has its cause.
//! Not proved: that a source gives bytes in time, and that what was written is flushed.
#![tactic(auto)]

mod piecewise;
mod reader;
mod service;
mod serving;
mod unread;

pub use piecewise::Piecewise;
pub use reader::{Came, LineReader};
pub use service::{Reply, Service};
pub use serving::{Next, Served, serve, serve_next};
pub use unread::KEPT;
