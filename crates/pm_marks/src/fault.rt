//! Why marks are no set.
ghost use Rattle.std.specs.Prelude.{◌≡◌};
ghost use Rattle.pm_marks.specs.declared.fault.SetError.TheVariants.{NoMemory};

use std::alloc::{AllocError, AllocFailed};
use thiserror::Error;

/// Why a list of marks gives no set.
#[derive(Clone, Copy, Debug, PartialEq, Eq, Error)]
pub enum SetError {
    #[error("adding the marks one by one does not give the list")]
    NotASet,
    #[error("no memory")]
    NoMemory,
}

impl From<AllocError> for SetError {
    ghost from_gives = { λ _ e. e ≡ NoMemory };

    fn from(_error: AllocError) -> SetError {
        SetError::NoMemory
    }
}

impl<T: Drop> From<AllocFailed<T>> for SetError {
    ghost from_gives = { λ _ e. e ≡ NoMemory };

    fn from(_error: AllocFailed<T>) -> SetError {
        SetError::NoMemory
    }
}
