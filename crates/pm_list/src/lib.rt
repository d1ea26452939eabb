//! Lists of owned items, which contracts see as lists.
//!
//! The one type is `Listed`, a `Vec` of any items. Each of its calls has one exact clause: what it makes of the list.
//! Nothing else is claimed.
#![tactic(auto)]

pub mod listed;
#[cfg(test)]
mod tests;

pub use listed::Listed;
