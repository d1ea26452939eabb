//! The edits of an editor: each gives one step, or reports why there is none. ProseMirror: the methods of `Transform`.
//!
//! The main call is `edit_for`, over the ops of pm_ops. Each of the thirteen edits is a call of its own too:
//! `insert_text`, `paste`, `split`, `lift`, `wrap`, `add_mark` and so on. `steps_for` has the same step as a list.
//!
//! Proved: each edit answers exactly the step that the definition of edits gives, or the first of `Range`, `NotThere`,
//! `NoFit`. The document that comes with a step is what the step makes of the one that was lent.
//!
//! Not promised: that a step without a document applies.
#![tactic(auto)]

mod attributes;
mod beginning;
mod edited;
mod empty;
mod fitted;
mod joining;
pub mod laws;
mod lifting;
mod marking;
mod nodes;
mod places;
mod slices;
mod splitting;
mod steps;
mod typing;
mod wrapping;

pub use attributes::{set_attr, set_doc_attr};
pub use edited::Edited;
pub use fitted::{delete, insert_node, insert_text, paste};
pub use joining::join;
pub use lifting::lift;
pub use marking::{add_mark, remove_mark};
pub use splitting::split;
pub use steps::{edit_for, steps_for};
pub use typing::set_type;
pub use wrapping::wrap;
