//! Contents built from left to right, out of whole nodes and of parts of other contents, letters put into a text, and what
//! is at a position.
//!
//! The main calls are `Builder::open`, `push`, `feed`, `close` and `finish`, and `typed`.
//!
//! Proved: a builder holds the tokens that it was given. `feed` appends the tokens from..to of a content, each close
//! with its owner, and is refused exactly where a close meets no open node of a compatible type. `OpenTypes::cross`
//! answers the same without building. `typed` puts new nodes in the place of the tokens from..to, which are a whole number
//! of nodes. `depth_at`, `unit_at` and `parts_pair` answer what is at a position.
//!
//! Not proved: that whole nodes are shared and not copied, and when `typed` answers `None`.
#![tactic(auto)]

mod builder;
mod crossing;
mod feed;
mod path;
mod position;
mod refused;
mod typing;

pub use builder::Builder;
pub use crossing::OpenTypes;
pub use position::{depth_at, parts_pair, unit_at};
pub use refused::Refused;
pub use typing::typed;
