//! Edits and other op lines as JSON: their kinds, fields and parts.
//!
//! The main calls are `read_op`, which reads an edit by the fields of its line, and `steps_in`, which reads the steps that a
//! line submits.
//!
//! Proved: each call answers what the definitions read in the JSON value (`Gives`), or the code of its first fault; running
//! out of memory has no code.
//!
//! Not proved: that there is memory.
#![tactic(auto)]

mod codes;
mod fields;
mod kinds;
mod ops;
mod parts;

pub use codes::{node_fault, step_fault, value_fault};
pub use fields::{count_in, depth_in, event_in, lost_in, number_in, side_in, text_in};
pub use kinds::EditKind;
pub use ops::read_op;
pub use parts::steps_in;
