//! Schemas to which it does not matter how marks divide a text. The theorems on undo ask for such a schema.
//!
//! The one call is `is_loose`.
//!
//! Proved: it answers true only for loose schemas, and false only where in some automaton a further text after a text
//! leads elsewhere or nowhere. Not proved: that it answers true for each loose schema.
#![tactic(auto)]

mod loose;

pub use loose::is_loose;
