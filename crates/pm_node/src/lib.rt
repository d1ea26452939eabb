//! Documents as trees, which contracts see as lists of tokens. ProseMirror: `Node`, `Fragment`, `Node.check`,
//! `createAndFill`.
//!
//! The main calls are `Document::new`, `Document::check`, `Children::find` and `make_filled`.
//!
//! Proved: a tree is its token list in normal form. `check` answers the first fault, and Ok only for a valid document.
//! `find` answers how many children end at or before a position, and `find_counted` the same in a bounded number of
//! steps. `make_filled` gives the node that is filled by the shortest list of types, filled in turn, and is refused
//! exactly by its causes. `stays_valid_around` answers true only where a change leaves no new fault.
//!
//! Not proved: which chunks two documents share, and when `stays_valid_around` answers false. Out of memory may come in
//! place of any answer.
#![tactic(auto)]

mod around;
mod check;
mod children;
mod chunks;
mod depth;
mod document;
mod fault;
mod filled;
mod fragment;
mod laws;
mod node;
mod pairs;
mod place;
mod reached;
mod rules;
mod touched;
mod types;
mod values;

pub use around::{Difference, stays_valid_around};
pub use check::MAX_DEPTH;
pub use children::{Children, Found};
pub use document::Document;
pub use fault::CheckError;
pub use filled::{FillError, make_filled};
pub use laws::{children_are_nodes, fault_is_first};
pub use node::{Body, Fragment, Node};
pub use pm_units::Units;
