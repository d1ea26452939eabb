//! Schemas: the types of nodes and marks, what may stand in what, and which attributes they have. ProseMirror:
//! `Schema`, `NodeType`, `MarkType`.
//!
//! The main calls are `Schema::build`, `attrs_for` and the look-ups of types.
//!
//! Proved: each refusal of `build` has its cause, in order. A schema that `build` answers has well named types, the
//! automata of their expressions, the least table of generatable types, and no type with a dead end. `attrs_for`
//! answers the given attributes or the defaults, or the first fault. Each look-up is exact. The test of content that
//! definitions use decides the expression's language (`content_decides`).
//!
//! A `Schema` made by hand in another way than by `build` carries none of this.
#![tactic(auto)]

mod attrs;
mod build;
mod declared;
mod ends;
mod error;
mod filling;
mod generated;
mod kinds;
pub mod laws;
mod mark_texts;
mod marks;
mod names;
mod naming;
mod same;
mod schema;
mod spec;
mod types;

pub use declared::AttrSpecs;
pub use error::{AttrError, SchemaError};
pub use kinds::AnyType;
pub use pm_attrs::Attrs;
pub use schema::Schema;
pub use spec::{AttrSpec, MarkSpec, NodeSpec, SchemaSpec};
