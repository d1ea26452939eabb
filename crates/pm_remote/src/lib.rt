//! A client whose authority is reached by answers alone: its log is not in hand, and only what comes is known of it.
//!
//! The main calls are `confirm` and `receive`. The client keeps no message and no answer between them.
//!
//! Proved: each call does what `Client::take` does of the same steps. After it the client stands to a log again, which goes on
//! by exactly the steps that came. `receive` refuses exactly where one of others' steps does not apply, and leaves the client as
//! it was. What it tells takes the pending steps back, under loose rules always: with others' steps and the pending ones
//! after it, it leads from the old document to the new one.
//!
//! Not promised: that the steps that came do stand in the authority's log, in this order.
#![tactic(auto)]

pub mod backing;
pub mod confirming;
pub mod hearing;
pub mod received;
pub mod receiving;
pub mod versions;

pub use confirming::confirm;
pub use received::{Back, ReceiveError, Received};
pub use receiving::receive;
