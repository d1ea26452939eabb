//! Callers of the engine: one reads and applies, one works with an authority, and two share a desk.
//! docs/embed/LIBRARY.md shows them.
//!
//! Proved of the one that shares a desk: each request is its seat's own, and the desk is closed with both seats joined,
//! so the premises of `call`, `join` and `close` can be met. Which document is left is shown by its test alone.
#![tactic(auto)]

#[cfg(test)]
mod applying;
#[cfg(test)]
mod desk;
#[cfg(test)]
mod together;
