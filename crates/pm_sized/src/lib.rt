//! Items in shared chunks with their measures, found by halves.
//!
//! The main calls are `Chunks::find`, `push`, `append` and `cut`.
//!
//! Proved: chunks are the list of their pairs of an item and its measure. `find` answers how many items end at or
//! before a position and the sum of their measures, in at most 6 steps plus the binary digits of (c + 31) / 32 for c
//! items. `append` and `cut` give exactly the run that they say. Out of memory leaves all as it was, but for `append`,
//! which may have appended the first items of the run.
//!
//! Not proved: which chunks and parts are shared, how many allocations a call takes, and that no body finds the place
//! without reading a start.
#![tactic(auto)]

pub mod append;
pub mod chunk;
pub mod chunks;
pub mod few;
pub mod find;
pub mod grouping;
pub mod groups;
pub mod grow;
pub mod halves;
pub mod many;
pub mod runs;
pub mod shared;
pub mod steps;

pub use chunks::Chunks;
pub use find::Found;
pub use steps::Steps;
