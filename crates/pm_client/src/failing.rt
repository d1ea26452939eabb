//! Why steps were not made or undone, or a cursor not set.
ghost use Rattle.std.specs.Prelude.{◌≡◌};
ghost use Rattle.pm_client.specs.declared.failing.EditError.TheVariants.{NoMemory};
ghost use Rattle.pm_client.specs.declared.failing.UndoError.TheVariants.{NoMemory as NoUndoMemory};
ghost use Rattle.pm_client.specs.declared.failing.CursorError.TheVariants.{NoMemory as NoCursorMemory};

use std::alloc::{AllocError, AllocFailed};
use thiserror::Error;

/// Why an edit made no step.
#[derive(Drop, Debug, Error)]
pub enum EditError<R> {
    /// Step `index`, counted from 0, is the first that does not apply, for this reason.
    #[error("step {index} does not apply")]
    Refused { index: u64, reason: R },
    /// Memory ran out, or the serials did.
    #[error("out of memory")]
    NoMemory,
}

impl<R> From<AllocError> for EditError<R> {
    ghost from_gives = { λ _ e. e ≡ NoMemory };

    fn from(_error: AllocError) -> EditError<R> {
        EditError::NoMemory
    }
}

impl<R, T: Drop> From<AllocFailed<T>> for EditError<R> {
    ghost from_gives = { λ _ e. e ≡ NoMemory };

    fn from(_error: AllocFailed<T>) -> EditError<R> {
        EditError::NoMemory
    }
}

/// Why no event was undone or redone.
#[derive(Clone, Copy, Debug, PartialEq, Eq, Error)]
pub enum UndoError {
    /// There is no event to undo, or to redo.
    #[error("there is nothing to undo")]
    NothingToUndo,
    /// Memory ran out, or the serials did.
    #[error("out of memory")]
    NoMemory,
}

impl From<AllocError> for UndoError {
    ghost from_gives = { λ _ e. e ≡ NoUndoMemory };

    fn from(_error: AllocError) -> UndoError {
        UndoError::NoMemory
    }
}

impl<T: Drop> From<AllocFailed<T>> for UndoError {
    ghost from_gives = { λ _ e. e ≡ NoUndoMemory };

    fn from(_error: AllocFailed<T>) -> UndoError {
        UndoError::NoMemory
    }
}

/// Why a cursor was not set.
#[derive(Clone, Copy, Debug, PartialEq, Eq, Error)]
pub enum CursorError {
    /// The position is past the document's end.
    #[error("the position is past the end")]
    Range,
    /// Memory ran out.
    #[error("out of memory")]
    NoMemory,
}

impl From<AllocError> for CursorError {
    ghost from_gives = { λ _ e. e ≡ NoCursorMemory };

    fn from(_error: AllocError) -> CursorError {
        CursorError::NoMemory
    }
}

impl<T: Drop> From<AllocFailed<T>> for CursorError {
    ghost from_gives = { λ _ e. e ≡ NoCursorMemory };

    fn from(_error: AllocFailed<T>) -> CursorError {
        CursorError::NoMemory
    }
}
