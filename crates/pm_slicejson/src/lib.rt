//! Slices as JSON values. ProseMirror: `Slice.toJSON`, `Slice.fromJSON`.
//!
//! The main calls are `read_slice` and `write_slice`.
//!
//! Proved: a JSON value is this slice or its first fault, in the order content, openStart, openEnd, and last a side
//! that is deeper than the content. Every slice is written, and where its content can be written it is read back as the
//! same slice. Under a schema whose defaults nest at most four levels deep, each slice that is read can be written.
#![tactic(auto)]

pub mod laws;
mod numbers;
mod reading;
mod writing;

pub use numbers::{as_count, count_at};
pub use reading::read_slice;
pub use writing::write_slice;
