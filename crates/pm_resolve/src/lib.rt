//! Places of a document: the nodes around a position, and the marks there. ProseMirror: `ResolvedPos`, `Node.resolve`.
//!
//! The main calls are `resolve`, which answers a `Place`, and the calls of `Place`: `depth`, `node`, `start`, `end`,
//! `index`, `shared_depth`, `marks`.
//!
//! Proved: `OutOfRange` comes exactly where the position passes the content. Each answer of a `Place` is read off the
//! document's tokens by an exact clause. `resolve_counted` answers as `resolve`. It takes at most the sum of the
//! bounds of `find_counted` over the nodes around the position (`most`), also where memory runs out, and no step where the
//! position passes the content.
#![tactic(auto)]

mod fault;
mod level;
mod marks;
mod place;
mod walk;

pub use fault::PlaceError;
pub use place::Place;
pub use walk::{resolve, resolve_counted};
