//! A client of the authority: what the authority has of it, what is pending, and what it shows. ProseMirror:
//! prosemirror-collab; `compose` is sendableSteps, `take` is receiveTransaction, the rebase is rebaseSteps.
//!
//! The main calls are `edit`, `compose`, `take`, `undo`, `redo` and `undo_event` of `Client`.
//!
//! Proved: each call is a function of the client's record. `take` reports Stale, Confirmed, Rebased or Refused exactly
//! by their causes. In a rebase the pending steps are carried over the maps back, the others' maps and the kept steps'
//! maps, paired. An undo is the same as over the client's whole timeline, and with nothing changed since gives the
//! document before the event, under loose rules or where the stored inverses apply. After `undo`, `redo` and
//! `undo_event` the steps made are the last ones of each timeline of the client, and each was made to undo a step of the
//! event (`tied`). A cursor with side `After` stays before its token, where no step on the way has ranges that touch.
//!
//! Not promised: that a dropped step could not have been kept by another rule.
#![tactic(auto)]

pub mod answers;
pub mod client;
pub mod cursors;
pub mod editing;
pub mod failing;
pub mod forgetting;
pub mod making;
pub mod naming;
pub mod plan;
pub mod rebasing;
pub mod serials;
pub mod taken;
pub mod undoing;

pub use client::Client;
pub use cursors::Cursor;
pub use failing::{CursorError, EditError, UndoError};
pub use taken::{MessageKind, Taken};
