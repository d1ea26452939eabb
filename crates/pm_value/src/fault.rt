//! Why a JSON value is no value.
ghost use Rattle.std.specs.Prelude.{◌≡◌};
ghost use Rattle.pm_value.specs.declared.fault.ValueError.TheVariants.{NoMemory};

use std::alloc::{AllocError, AllocFailed};
use thiserror::Error;

/// The first fault of a JSON value that is to be a value.
#[derive(Clone, Copy, Debug, PartialEq, Eq, Error)]
pub enum ValueError {
    #[error("a number that is not whole, or beyond 64 bits")]
    Float,
    #[error("a whole number above the greatest of 64 bits with a sign")]
    Wide,
    #[error("lists and objects more than four levels deep")]
    Deep,
    #[error("no memory")]
    NoMemory,
}

impl From<AllocError> for ValueError {
    ghost from_gives = { λ _ e. e ≡ NoMemory };

    fn from(_error: AllocError) -> ValueError {
        ValueError::NoMemory
    }
}

impl<T: Drop> From<AllocFailed<T>> for ValueError {
    ghost from_gives = { λ _ e. e ≡ NoMemory };

    fn from(_error: AllocFailed<T>) -> ValueError {
        ValueError::NoMemory
    }
}
