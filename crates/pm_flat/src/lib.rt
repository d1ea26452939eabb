//! Documents of one paragraph as a change: the smallest instance, which needs no schema.
//!
//! `Letters` is the document and `Replace` the step. Proved: a step is its outcome with the reasons in order, with its
//! inverse, its map and where maps carry it, and it keeps all laws of a change. The tests of the generic crates play
//! over it.
#![tactic(auto)]

pub mod flat;
pub mod letters;
#[cfg(test)]
mod tests;

pub use flat::{Reason, Replace};
pub use letters::{Letters, all_printable};
