//! A journal: lines in a file, each of them on the disk before it counts.
//!
//! Each line begins with a gate, a space, and ends with LF, so the file is a text. A gate that is no space is closed: it ends the
//! lines, whatever stands behind it. Lines are written behind the closed gate, with the next one behind them, and once they are on
//! the disk the gate is opened. So a crash leaves all of them or none, however a write is torn, and reading a file writes nothing.
//!
//! The main calls are `recover`, `Journal::begin`, `Journal::append` and `Journal::append_group`.
//!
//! Proved, for every disk of the model of sqlite_disk: after `Ok` each crash leaves a file that has the lines; after `Err` it leaves
//! the lines from before, with all of the new ones or with none; `recover` finds exactly the lines that are there; each `Err` has a
//! cause; a file that has no line is not appended to; and over a machine that stops at any call of its disk and comes back
//! (`stopped_and_restarted`): each acknowledged line is found, in order, and at most one more.
//!
//! Not proved: that a real file is such a disk (sqlite_std_file says what is argued), and that there is memory.
#![tactic(auto)]

mod errors;
mod group;
mod journal;
mod recovery;
mod restart;
#[cfg(test)]
mod tests;

pub use errors::{AppendError, RecoverError};
pub use group::{Group, is_line};
pub use journal::Journal;
pub use recovery::{Recovered, is_blank, recover};
pub use restart::{Restarted, stopped_and_restarted};
