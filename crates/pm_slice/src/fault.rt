//! Why nothing is cut.
ghost use Rattle.std.specs.Prelude.{◌≡◌};
ghost use Rattle.pm_slice.specs.declared.fault.CutError.TheVariants.{NoMemory};

use std::alloc::{AllocError, AllocFailed};
use thiserror::Error;

/// Why a cut gives no slice.
#[derive(Clone, Copy, Debug, PartialEq, Eq, Error)]
pub enum CutError {
    #[error("the positions are not in order within the document")]
    Range,
    #[error("no memory")]
    NoMemory,
}

impl From<AllocError> for CutError {
    ghost from_gives = { λ _ e. e ≡ NoMemory };

    fn from(_error: AllocError) -> CutError {
        CutError::NoMemory
    }
}

impl<T: Drop> From<AllocFailed<T>> for CutError {
    ghost from_gives = { λ _ e. e ≡ NoMemory };

    fn from(_error: AllocFailed<T>) -> CutError {
        CutError::NoMemory
    }
}
