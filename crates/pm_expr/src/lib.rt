//! Content expressions as text: `parse` reads one against the names of a schema.
//!
//! Proved: `parse` answers the reading that the grammar gives, which is the only one, or the first fault from the left.
//! `Deep` comes exactly at the first token by which an item has more than 500 levels.
//!
//! Out of memory may come in place of any answer.
#![tactic(auto)]

pub mod error;
mod join;
mod levels;
pub mod names;
mod reader;
mod reading;
mod scan;
mod tokens;

pub use error::ExprError;
pub use names::{NameGroups, Names};
pub use reading::parse;
