//! One document of a house: the document, its log from a first kept version on, and the IDs of the clients in it.
//!
//! The main call is `Archive::answer`, which answers a line to the document.
//!
//! Proved: what a line is answered, and what the document and its log are then (`answered`). Out of memory changes nothing. Both
//! documents stay valid, and the log leads from the first kept one to the last (`IsArchive`). A submission is accepted exactly
//! where there is room for its ID, its version is the document's and its steps apply (`AcceptsExactly`); a line with a fault
//! changes nothing (`FaultsChangeNothing`). To let old steps go changes no answer but those to what asks for them
//! (`ForgetsOnlyBelow`). Where entries are taken back and the later ones lie apart, what is left is what the later ones make of the
//! document before (`RevertLeaves`). Which lines make a document what it is, and whether two are the same (`same_archive`).
//!
//! Not proved: that there is memory.
#![tactic(auto)]

mod answering;
mod archive;
mod authoring;
mod editing;
mod forgetting;
mod lines;
mod mapping;
mod presenting;
mod reverting;
mod same;
mod shared;
mod texts;
mod theorems;
mod writing;

pub use archive::Archive;
pub use shared::Shared;
pub use texts::opened_text;
pub use theorems::laws;
