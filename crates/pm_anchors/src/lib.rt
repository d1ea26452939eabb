//! Positions kept outside of documents, such as a comment's, over the steps of a log. ProseMirror: `Mapping.mapResult` over
//! the maps of steps.
//!
//! The main call is `anchored`; `are_within` says whether it may be called.
//!
//! Proved: each position goes where the mapping of the steps' maps sends it by its side, with its flags, and stands within the
//! document after the steps.
#![tactic(auto)]

mod anchoring;
mod leading;
mod within;

pub use anchoring::anchored;
pub use within::are_within;
