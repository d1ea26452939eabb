//! Versions of a log's document, and rooms that clients enter late.
//!
//! The document after the first n steps of a log is found from the nearest checkpoint before it, of which there is one
//! at every 64th step. A client that comes late begins with such a document, and reads none of the log.
//!
//! The main calls are `Versions::at` and `LateRoom::play_all`.
//!
//! Proved: `at` gives the document after the first n steps, in n mod 64 counted steps, and `Past` comes exactly where n
//! passes the log. A client that came late is as one that was there from the first and pulled instead (`AllAsPulled`).
//!
//! Not proved: that nothing is applied but by the counted call.
#![tactic(auto)]

mod at;
mod late;
mod steps;
mod versions;

pub use at::AtError;
pub use late::LateRoom;
pub use steps::{Steps, apply_counted};
pub use versions::Versions;
