//! Views: the tokens of a part of a document, lent and not copied. ProseMirror: `Node.nodesBetween`, `Fragment.cut`.
//!
//! The main calls are `view`, `SliceView::tokens` and `SliceView::slice`.
//!
//! Proved: `view` shows the tokens from..to of a document, each close with the type, attributes and marks of its node,
//! and `Range` comes exactly where not from <= to <= size. It takes no memory. `tokens` gives the parts in order: no
//! text run is empty, and no two neighbouring runs have equal marks. `slice` is the slice that `cut` of pm_slice gives.
//!
//! Not proved: that nothing is copied.
#![tactic(auto)]

mod around;
mod part;
mod slice_view;
mod tokens;
mod walk;

pub use part::{Part, TextRun};
pub use slice_view::{SliceView, view, view_content};
pub use tokens::Tokens;
