//! Content expressions, and the automata that run them over lists of node types. ProseMirror: `ContentMatch`.
//!
//! The main calls are `Auto::build`, `fill`, `wrapping` and `finishing`.
//!
//! Proved: the automaton of an expression accepts exactly its language, and has its reachable states in order. `Mixed`
//! and `TooWide` come exactly by their causes. `fill` and `wrapping` answer the shortest list, and of the shortest the
//! first in the order of edges. `finishing` marks exactly the states from which a valid end can be reached by the given
//! types.
//!
//! Not proved: that the work for a state does not grow with the number of types. What a state means by the places of
//! the expression is in pm_places.
#![tactic(auto)]

pub mod auto;
mod bits;
mod copies;
mod edges;
pub mod error;
mod explore;
pub mod expr;
mod fills;
mod groups;
mod known;
mod layout;
mod mixed;
pub mod numbers;
pub mod places;
mod search;
pub mod sets;
pub mod states;
mod width;
mod wraps;

pub use auto::{Auto, Edge, State};
pub use error::AutoError;
pub use expr::{Expr, TypeId};
