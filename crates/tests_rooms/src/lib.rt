//! Tests of pm_rooms, with documents of one paragraph.
//!
//! `Typist` is the maker of its steps. Proved of it is what a maker owes.
#![tactic(auto)]

#[cfg(test)]
mod hall;
#[cfg(test)]
mod lines;
mod typist;

pub use typist::Typist;
