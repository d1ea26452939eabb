//! Where positions go over a mapping that grows at both ends, by composed frames.
//!
//! When a pending step is carried, its inverted map comes before the mapping and its rebased map after it, as a pair:
//! the two are a frame around what is between. A frame leads a position down, into what it encloses, and up again, or
//! past all of it by a jump from the front map's ranges to the mirror's. Frames compose, so neighbouring frames are
//! composed ahead of time.
//!
//! The main calls are `push`, `put_front`, `enclose` and `map` of `Frames`; `Route` is a mapping for few steps and
//! frames for many.
//!
//! Proved: whatever the mapping is, `Frames::map` answers where it leads, position and flags, on both sides. Not
//! proved: that it takes fewer steps than going over each map. Of frames that met out of memory nothing is said, and no
//! caller uses them again.
#![tactic(auto)]

mod block;
mod course;
mod cut;
mod following;
mod frames;
mod growing;
mod piece;
mod route;
mod stack;

pub use frames::Frames;
pub use growing::Growing;
pub use route::Route;
