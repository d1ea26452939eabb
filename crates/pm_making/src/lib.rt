//! The maker of a session's edits: what an op is on a document becomes the step of pm_edit.
//!
//! The one call is `EditMaker`, a `Maker` of pm_session.
//!
//! Proved: an op's steps are those of the definition of edits (`makes`), or why there are none; an op makes at least one step.
#![tactic(auto)]

mod making;

pub use making::EditMaker;
