//! Why there is no place.
ghost use Rattle.std.specs.Prelude.{◌≡◌};
ghost use Rattle.pm_resolve.specs.declared.fault.PlaceError.TheVariants.{NoMemory};

use std::alloc::{AllocError, AllocFailed};
use thiserror::Error;

/// Why a position has no place.
#[derive(Clone, Copy, Debug, PartialEq, Eq, Error)]
pub enum PlaceError {
    #[error("the position is past the end of the document")]
    OutOfRange,
    #[error("no memory")]
    NoMemory,
}

impl From<AllocError> for PlaceError {
    ghost from_gives = { λ _ e. e ≡ NoMemory };

    fn from(_error: AllocError) -> PlaceError {
        PlaceError::NoMemory
    }
}

impl<T: Drop> From<AllocFailed<T>> for PlaceError {
    ghost from_gives = { λ _ e. e ≡ NoMemory };

    fn from(_error: AllocFailed<T>) -> PlaceError {
        PlaceError::NoMemory
    }
}
