//! Edits as values: `Op` has a case for each edit that a session file or a caller can ask for.
//!
//! No function. pm_edit answers the step of each.
#![tactic(auto)]

mod op;

pub use op::Op;
