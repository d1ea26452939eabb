//! A session whose clients run on threads of their own, at one desk: `play_on_threads` plays it whole.
//!
//! `run_lines` plays the lines of each client, `merge` gives the order that a history of calls makes, and `open_desk`
//! and `close_room` begin and end it.
//!
//! Proved, where it returns: there is an order in which each line stands once and each client's lines in theirs;
//! outcomes and room are those of the session on one thread in that order; the order is what the calls of its own
//! presenting lines make of the clients' lines (`IsOrderly`). A history of calls at a new authority makes this order, and
//! the room's authority is the one after these calls (`history`). Which order comes, no clause says.
#![tactic(auto)]

mod apart;
mod close;
mod crew;
mod file;
mod hands;
mod hiring;
mod host;
pub mod opening;
pub mod order;
mod seating;
mod threaded;
mod worker;

pub use close::close_room;
pub use crew::Crew;
pub use file::{File, file_of};
pub use hands::{deal, queues};
pub use host::DeskHost;
pub use opening::{Seated, open_desk};
pub use order::merge;
pub use threaded::{Threaded, play_on_threads};
pub use worker::{Worker, run_lines};
