//! The authority, which keeps the one log of steps that all clients come to. ProseMirror: the `Authority` of the guide
//! to collaborative editing.
//!
//! The main call is `Authority::present`, which answers a message.
//!
//! Proved: `WrongVersion` comes exactly where the message's version is not the log's length, `StepRefused` exactly at
//! the first step that does not apply, else `Accepted`. Accepted appends exactly the message's steps; any other answer
//! changes nothing. The document is always the first one after the log. It is a `Machine` too, for a desk of threads.
#![tactic(auto)]

pub mod authority;
pub mod machine;
pub mod message;
pub mod named;
pub mod running;

pub use authority::Authority;
pub use machine::Request;
pub use message::{Answer, Message};
pub use named::{Named, copy_steps};
pub use pm_change::Name;
pub use running::{Refusal, apply_all};
