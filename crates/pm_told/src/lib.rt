//! What a client's talk tells: the texts of its answers, and the steps that lead a view to the client's document.
//!
//! The main calls are `look_ahead`, which reckons what taking others' steps comes to, and `brought_text`, which tells it.
//!
//! Proved: each text is exactly the one of specs/. What is reckoned is what the client becomes when it takes the steps.
//!
//! Not proved: that there is memory.
#![tactic(auto)]

mod foreign;
mod listing;
mod pairing;
mod preview;
mod texts;
mod writing;

pub use foreign::{brought_text, own_text};
pub use listing::{changes_of, positions, push_copies, serials_from};
pub use preview::{OTHER, Preview, look_ahead};
pub use texts::{
    ask_text, confirmed_text, cursor_text, entered_text, gap_text, kept_text, no_event_text,
    none_text, stale_text, unmade_text,
};
pub use writing::{push_changes, push_numbers};
