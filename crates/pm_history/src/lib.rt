//! What a client keeps of its steps, so that it can undo them. ProseMirror: prosemirror-history. This crate knows
//! nothing of documents.
//!
//! The timeline is each step that led to the client's document, its own and those of others. A history keeps an item
//! for each step from the first one on that can be undone or redone, and the events of these. Undoing an event carries
//! the changes that undo its steps over all that came later.
//!
//! The main calls are `note_all`, `rebased` and `pop_event` of `Branches`, and `undo_event`.
//!
//! Proved: undoing from what the history remembers is the same as over the whole timeline (`whole`). Where nothing has
//! changed since, also over nested undone stretches, it gives the earlier document, under loose rules or where the
//! stored inverses apply (`restores`). Events are joined by number, dropped and undone exactly, and a trimming drops
//! nothing that an undo needs (`trimming_keeps`).
//!
//! Not proved: how much memory is held, and how long a trimming takes.
#![tactic(auto)]

mod branch;
mod branches;
mod dropped;
mod form;
mod item;
mod later;
mod latest;
pub mod laws;
mod live;
mod ranges;
mod rising;
mod tied;
mod trimming;
mod turn;
mod undoers;
mod undoing;

pub use branch::{Branch, Event};
pub use branches::recording::names_in;
pub use branches::{Branches, MadeBy};
pub use item::Item;
pub use tied::tie;
pub use trimming::Held;
pub use turn::Turn;
pub use undoing::{Undone, undo_event};
