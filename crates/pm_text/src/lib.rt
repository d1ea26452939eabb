//! Text as UTF-16 units, which positions of a document count, and units as text.
//!
//! The main calls are `units_of`, `text_of`, `is_whole` and `first_lone`.
//!
//! Proved: the units and the bytes are those of one text, in both directions; `Lone` comes exactly at the first
//! surrogate that is no part of a pair; `is_whole` answers whether there is none. That a text of ASCII alone goes a
//! faster way is in no clause.
#![tactic(auto)]

mod ascii;
mod fault;
mod lone;
mod units;

pub use fault::TextError;
pub use lone::{first_lone, is_whole};
pub use units::{text_of, units_of};

#[cfg(test)]
mod tests;
