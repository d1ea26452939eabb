//! Who put the tokens of a document in, over the steps of a log, for a tool of review that shows authors by colour.
//!
//! The main call is `authors`.
//!
//! Proved: over a step, tokens that no range of its map takes out keep their author, and those that a range puts in are the
//! step's; neighbouring tokens of one author are one run; and all runs together have as many tokens as the document after
//! the steps. Laws in src/laws.rt say the same of single tokens: where each stands after a step, and whose it is.
#![tactic(auto)]

mod adding;
mod copying;
pub mod laws;
pub mod run;
mod stepping;
mod telling;

pub use run::Run;
pub use telling::authors;
