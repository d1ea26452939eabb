//! Fitting a slice into a document: the first of a list of candidates that can be put in place of a range. ProseMirror:
//! `replaceStep`, `Fitter`.
//!
//! The main call is `fit`.
//!
//! Proved: it answers the step of the first candidate with which `replace` gives a document, with that document, and
//! None exactly where there is none. The candidates are listed by a definition, in the order of the rule. The wrapping
//! is the shortest list of types, and of the shortest the first in the order of edges (`wrapping_is_least`).
//!
//! The rule is not ProseMirror's in every case.
#![tactic(auto)]

mod closing;
mod fitted;
mod fitting;
mod laws;
mod nodes;
mod peeled;
mod peeling;
mod target;
mod types;
mod wrapped;
mod wrapping;

pub use closing::push_hollow;
pub use fitted::Fitted;
pub use fitting::fit;
pub use laws::wrapping_is_least;
