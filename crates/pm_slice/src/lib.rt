//! Slices: a part of a document, whose first and last nodes may be open. ProseMirror: `Slice`, `Node.slice`.
//!
//! The main calls are `Slice::new` and `cut`.
//!
//! Proved: `Slice::new` gives the content back exactly where a side is deeper than its first or last nodes, and a slice
//! of no tokens is the empty one. `cut` is the part from..to, with the nodes open that are around one end and not
//! around both. `Range` comes exactly where not from <= to <= size.
#![tactic(auto)]

mod clipping;
mod cutting;
mod fault;
mod slice;
mod spine;

pub use clipping::clip;
pub use cutting::{cut, cut_content};
pub use fault::CutError;
pub use slice::Slice;
