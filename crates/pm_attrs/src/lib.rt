//! The attributes of a node or a mark. ProseMirror: `Attrs`.
//!
//! `Attrs` is the list of its values, in the order in which the type declares them.
//!
//! Proved: the test of equality decides equality, and `with_value` changes one place and no other.
#![tactic(auto)]

mod attrs;

pub use attrs::Attrs;

#[cfg(test)]
mod tests;
