//! Steps as JSON values, a file for each kind: how it is read, and how it is written. ProseMirror: `Step.toJSON`,
//! `Step.fromJSON`.
//!
//! The main calls are `read_step`, `write_step` and `step_text`.
//!
//! Proved: a JSON value is this step or its first fault, `stepType` first and then the fields of the kind in order.
//! Every step is written, and where it can be stored it is read back as the same step. Under a schema whose defaults
//! nest at most four levels deep, each step that is read can be stored, and so can each step that applies to a valid
//! document.
#![tactic(auto)]

mod around;
mod attr;
mod doc_attr;
mod fault;
mod fields;
mod kind;
pub mod laws;
mod mark;
mod members;
mod node_mark;
mod reading;
mod replace;
mod texts;
mod writing;

pub use fault::StepReadError;
pub use reading::read_step;
pub use texts::step_text;
pub use writing::write_step;
