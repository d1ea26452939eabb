//! Step maps and mappings: where positions go over steps, and how deleted ones come back. ProseMirror: `StepMap`,
//! `Mapping`, `MapResult`; `Side` is assoc.
//!
//! The main calls are `StepMap::map`, `Mapping::map`, `push` and `push_pair`.
//!
//! Proved: `map` sends a position where the first range that holds it decides, with all four flags and the recover
//! value, and a mapping does so over its maps and mirrors. Laws in src/laws.rt: a map inverts twice to itself and keeps
//! the order of positions, a position outside comes back, a map and its mirror move nothing but `after` at a start.
#![tactic(auto)]

pub mod laws;
pub mod mapping;
mod passing;
pub mod positions;
mod ranges;
pub mod side;
pub mod step_map;

pub use mapping::{Mapping, Mirrored};
pub use positions::Positions;
pub use side::Side;
pub use step_map::{Moved, Recover, Span, StepMap};
