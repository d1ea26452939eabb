//! What became of a line.
use pm_change::{Change, NoStep};
use pm_client::Taken;

/// The authority's answer in short, as an outcome tells it: how many entries came, and not which.
#[derive(Drop)]
pub enum AnswerSummary<C: Change> {
    /// `count` steps stand in the log from place `from` on.
    Accepted { from: u64, count: u64 },
    /// The submission's version is not the log's length, which is `length`.
    Version { length: u64 },
    /// Step `index`, counted from 0, does not apply, for this reason.
    Refused { index: u64, reason: C::Reason },
    /// So many entries of the log came, from place `since` on.
    Entries { since: u64, count: u64 },
}

/// What became of a line.
#[derive(Drop)]
pub enum Outcome<C: Change> {
    /// An op, an undo or a redo made `count` steps, which are pending. An undo or a redo made 0 where nothing was left to
    /// apply.
    Made {
        count: u64,
    },
    /// There was no event to undo or to redo, or none to undo that has the number. Nothing changed.
    Nothing,
    /// The op made no step, for this reason; `Range` is also a cursor past the document's size, and `NotThere` what the member
    /// can't do. Nothing changed.
    NoStep(NoStep),
    /// Step `index`, counted from 0, does not apply, for this reason. Nothing changed.
    Refused {
        index: u64,
        reason: C::Reason,
    },
    /// A cursor was set at this position.
    CursorAt {
        pos: u64,
    },
    /// The message of this number was composed.
    Composed {
        number: u64,
    },
    /// A message was presented, and its answer kept.
    Answered {
        told: AnswerSummary<C>,
    },
    /// An answer was taken.
    Took {
        taken: Taken,
    },
    /// A message was composed and presented, and its answer kept, and taken unless it was lost.
    Exchanged {
        told: AnswerSummary<C>,
        taken: Option<Taken>,
    },
    /// A client that comes late stands at this version, which is the log's length.
    Entered {
        version: u64,
    },
}
