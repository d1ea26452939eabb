//! Why units are no text.
ghost use Rattle.std.specs.Prelude.{◌≡◌};
ghost use Rattle.pm_text.specs.declared.fault.TextError.TheVariants.{NoMemory};

use std::alloc::{AllocError, AllocFailed};
use thiserror::Error;

/// Why units give no text.
#[derive(Clone, Copy, Debug, PartialEq, Eq, Error)]
pub enum TextError {
    /// The unit at `at`, counted from 0, is the first surrogate that is no part of a pair.
    #[error("the unit at {at} is a surrogate that is in no pair")]
    Lone { at: usize },
    #[error("no memory")]
    NoMemory,
}

impl From<AllocError> for TextError {
    ghost from_gives = { λ _ e. e ≡ NoMemory };

    fn from(_error: AllocError) -> TextError {
        TextError::NoMemory
    }
}

impl<T: Drop> From<AllocFailed<T>> for TextError {
    ghost from_gives = { λ _ e. e ≡ NoMemory };

    fn from(_error: AllocFailed<T>) -> TextError {
        TextError::NoMemory
    }
}
