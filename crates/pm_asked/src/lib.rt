//! What a line of a client's talk asks, and what the line says by which the client comes.
//!
//! The main calls are `asked_line` and `entry_line`.
//!
//! Proved: each line is exactly one thing, what it asks or the code of its first fault, by the definitions of specs/.
//!
//! Not proved: that there is memory.
#![tactic(auto)]

mod asked;
mod entry;
mod given;
mod word;

pub use asked::{Asked, Edit, asked_line};
pub use entry::{Entry, entry_line};
pub use given::Given;
