//! Entries of a log taken back, whatever came since.
//!
//! The main call is `revert`; `take_back` is the same for any change, without `apart`.
//!
//! Proved: the steps made are those that undo the entries, from the last to the first, each carried over what came since; they
//! apply to the present document and lead to the one that is told. A refusal names the entry of the first that does not apply.
//! `apart` is told exactly where all later entries lie apart; the document is then the one that these make of the document
//! before the entries.
#![tactic(auto)]

mod backs;
mod reverting;
mod taken;
mod taking;
mod telling;

pub use reverting::{Reverted, revert};
pub use taken::{Taken, take_back};
