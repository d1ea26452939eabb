//! The top call of the program: words and a source in, a status and a sink out.
//!
//! `run` does what any words say, and `plain` what they say without threads. A crate of its own, pm_program, plays it
//! over standard input and output.
//!
//! Proved, over the bytes of the source and of the sink: what was written is an output of the word for the input
//! (`output`), every session that an input is has sound rooms (`sound`), and statuses, reads, writes and faults are
//! exactly as said. Two meanings of an input have one output under check, replay, gen, late, at and rooms
//! (`output_is_one`). The clauses in plain words are in docs/believe/PROVED.md.
//!
//! Not proved: that every input has a meaning, that memory is there, which order threads come to, and anything of the
//! bytes of a source that does not tell them, such as standard input.
#![tactic(auto)]

mod answer;
mod call;
mod files;
mod finding;
mod late;
mod obeying;
mod one_output;
mod replaying;
mod rooms;
mod running;
mod running_rooms;
mod selecting;
mod summing;
mod words;

pub use call::{Status, plain, run};
pub use one_output::output_is_one;
