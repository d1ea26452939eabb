//! A session made from a number: its bytes, and the summary of what came of it.
//!
//! The main calls are `generate`, `summary` and `asked_of`.
//!
//! Proved: `generate` gives exactly the text that two counts and a number make (`generated`), `summary` exactly the
//! five lines, and `asked_of` reads the three words, one to twenty digits each and within the limits. That the text is
//! a session is the law of pm_gen_laws.
#![tactic(auto)]

mod asking;
mod bounds;
mod drawing;
mod lines;
mod session;
mod summing;
mod turns;

pub use asking::{Asked, asked_of, number_of};
pub use bounds::{MAX_CLIENTS, MAX_OP_LINES, is_in_bounds};
pub use session::generate;
pub use summing::summary;
