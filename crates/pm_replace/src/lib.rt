//! Replacing a range of a document by a slice. ProseMirror: `Node.replace`.
//!
//! The main call is `replace`.
//!
//! Proved: it answers the spliced document, or the first reason in the order Range, Depth, Pair, Join, Large, Deep,
//! Content, NotInSchema. Laws in src/laws.rt: the result keeps what was before and after the range, it is valid, a
//! replace by the cut of the same range gives the document back, and what was cut out can be put back.
//!
//! Not proved: how much of the document is looked at again.
#![tactic(auto)]

mod checking;
mod known;
pub mod laws;
mod refusing;
mod replacing;
mod splicing;
mod values;

pub use checking::{checked, checked_change, checked_content};
pub use known::{knows_mark, knows_slice, value_is_shallow};
pub use pm_meaning::Reason;
pub use refusing::failed;
pub use replacing::{replace, splice_valid};
pub use splicing::{join, splice};
