//! One machine that threads share. Its calls form one history.
//!
//! The main calls are `call`, `split`, `join` and `close` of `Desk`, each with a `Seat`.
//!
//! Proved, for any machine: a reply is the machine's at the call's place in the one history. That history begins with
//! all that the seat had seen and has no other call of the seat. `close` gives the machine after the whole history,
//! which has the calls of the first and each joined seat and no others. Out of memory gives the request back, and the
//! call is in no history.
//!
//! Each holds where the call returns: nothing is claimed of waiting, progress, fairness or who comes first.
#![tactic(auto)]

pub mod desk;
pub mod history;
mod plays;
mod turn;

pub use desk::{Desk, Seat};
pub use history::{Back, Closed, Past};
