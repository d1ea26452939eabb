//! Why an op makes no step.
ghost use Rattle.std.specs.Prelude.{◌≡◌};
ghost use Rattle.pm_change.specs.declared.no_step.MakeError.TheVariants.{NoMemory};

use std::alloc::{AllocError, AllocFailed};
use thiserror::Error;

/// Why an op makes no step on a document: the first of these.
#[derive(Clone, Copy, Debug, PartialEq, Eq, Error)]
pub enum NoStep {
    #[error("the positions are not in order within the document")]
    Range,
    /// What the op is about isn't there, as each op says.
    #[error("there is nothing for the op to do there")]
    NotThere,
    #[error("the content fits nowhere in the range")]
    NoFit,
}

/// The steps of an op were not made: it makes none on this document, or running out of memory.
#[derive(Clone, Copy, Debug, PartialEq, Eq, Error)]
pub enum MakeError {
    #[error("{0}")]
    NoStep(NoStep),
    #[error("no memory")]
    NoMemory,
}

impl From<AllocError> for MakeError {
    ghost from_gives = { λ _ e. e ≡ NoMemory };

    fn from(_error: AllocError) -> MakeError {
        MakeError::NoMemory
    }
}

impl<T: Drop> From<AllocFailed<T>> for MakeError {
    ghost from_gives = { λ _ e. e ≡ NoMemory };

    fn from(_error: AllocFailed<T>) -> MakeError {
        MakeError::NoMemory
    }
}
