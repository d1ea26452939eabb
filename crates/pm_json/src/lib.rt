//! What a reader asks of a JSON value, in whichever form it is held: as a value of `serde_json`, or as a tree of
//! `json`, which borrows its text.
//!
//! The trait is `JsonRef`. `tree_in` reads a text as a tree.
//!
//! Proved: each call of `JsonRef` answers what the value is that serde_json's reading of the text gives: the value
//! under a key (of a key that comes twice, the last one), the items of an array, the keys of an object in byte order. A
//! tree that `tree_in` answers is the one that the text writes.
//!
//! Not proved: that each JSON text is read as a tree.
#![tactic(auto)]

mod any;
mod number;
mod owned;
mod reading;
mod tree;
mod value;
mod whole;

pub use any::JsonRef;
pub use reading::tree_in;
pub use tree::TreeRef;
