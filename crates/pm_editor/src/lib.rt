//! A client's talk: a line in, its answer out. Line 1 is a schema, line 2 a document of it, line 3 names the client and the
//! version at which it comes, and each later line asks the editor that they open: to edit, to undo, for a message to the authority,
//! or to take the authority's answer. The authority itself is elsewhere.
//!
//! The main call is `ClientTalk::tell`; a `ClientTalk` is a `Service` of pm_serve too.
//!
//! Stated: what a line is answered, and what the talk is then (`Replies`; after the opening `answered`). Out of memory changes
//! nothing: each text is made before what it tells is done. The client stands to a log after each line (`IsEditor`). A line with a
//! fault changes nothing, and the steps that a view is shown lead it to the client's new document (`laws`).
//!
//! Not proved: that there is memory.
#![tactic(auto)]

mod editing;
mod editor;
pub mod laws;
mod messages;
mod taking;
mod talk;
mod turning;

pub use editor::Editor;
pub use talk::ClientTalk;
