//! A talk: a line in, its answer out. Line 1 is a schema, line 2 a document of it, and each later line asks the authority that
//! they open: to append steps, for the log, or for the document.
//!
//! The main call is `Talk::tell`; a `Talk` is a `Service` of pm_serve too.
//!
//! Proved: what a line is answered, and what the talk is then (`Replies`; after the opening `answered`). Out of memory changes
//! nothing. Of all lines that are answered one after another: the answers and the authority are functions of the lines, and of
//! which of them there was no memory for (`AllTalks`, `AllOpened`); the document is always valid; a submission is accepted exactly
//! where there is room for its ID, its version is the log's length and its steps apply (`AcceptsExactly`); a line with a fault is
//! answered its code, and changes nothing (`FaultsChangeNothing`).
//!
//! A `Limited` is a talk whose submissions may have a limit of work: one whose steps go over more tokens (`works`) is told the
//! limit, and changes nothing; any other line is answered as by the talk (`RepliesWithin`, after the opening `answered_within`).
//!
//! Not proved: that there is memory.
#![tactic(auto)]

mod asked;
mod at_once;
mod fields;
mod ids;
mod limited;
mod live;
mod presenting;
mod talk;
mod texts;
mod theorems;
mod work;
mod writing;

pub use asked::Asked;
pub use fields::{id_from, id_in};
pub use ids::ClientIds;
pub use limited::{Limited, limit_text};
pub use live::Live;
pub use talk::Talk;
pub use texts::{
    fault_place, fault_text, no_memory, opening_fault_text, reason_number, refused_text,
};
pub use theorems::laws;
pub use work::works;
