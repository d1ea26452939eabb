//! The report of a session.
//!
//! The main call is `report`; `client_lines` writes how each client is.
//!
//! Proved: the report's bytes, as a function of the numbered outcomes and the room. Each step of the log of an
//! authority can be written, and its text is read back as this step (the law `log_can_be_written`).
#![tactic(auto)]

mod laws;
mod outcomes;
mod standing;
mod whole;
mod written;

pub use laws::log_can_be_written;
pub use outcomes::{Numbered, with_numbers};
pub use standing::client_lines;
pub use whole::report;
