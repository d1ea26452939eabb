//! Marks and sets of marks, over any attributes that can be compared and copied. ProseMirror: `Mark`, `Mark.addToSet`,
//! `Mark.removeFromSet`.
//!
//! The main calls are `MarkSet::add`, `remove` and `has`.
//!
//! Proved: `add` is the manual's rule over lists, adding twice is adding once, and a set stays a set. In a set no two
//! marks exclude each other and none comes before one of lower rank. `NotASet` comes exactly where adding one by one
//! does not give the list back.
#![tactic(auto)]

mod fault;
mod mark;
mod rules;
mod same;
mod set;

pub use fault::SetError;
pub use mark::{Mark, MarkId};
pub use rules::MarkRules;
pub use same::Same;
pub use set::MarkSet;
