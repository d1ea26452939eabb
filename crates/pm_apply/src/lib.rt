//! Steps as changes of documents, a file for each kind: what a step makes of a document, and the steps that take it
//! back. ProseMirror: `Step.apply`, `Step.invert`.
//!
//! The main type is `DocChange`, with `apply`, `inverse`, `step_map` and `carry`.
//!
//! Proved: `apply` answers the outcome of the step, for all eight kinds and with the reasons in order. `inverse`
//! answers the steps that take it back: for a mark step its opposite where that restores, else those of its runs.
//! `DocChange` keeps every law of a change. The inverse of an `attr` or `docAttr` step always applies right after it,
//! and so do those of both replaces (pm_replace).
#![tactic(auto)]

mod apply;
mod around;
mod around_back;
mod attr;
mod between;
mod change;
mod doc_attr;
mod inverse;
pub mod laws;
mod mark;
mod marking;
mod marks;
mod node_mark;
mod replace;
mod restoring;
mod runs;
mod sides;
mod taking;
mod target;
mod values;
mod walk;

pub use change::DocChange;
