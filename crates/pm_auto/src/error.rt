//! Why an automaton was not built.
ghost use Rattle.std.specs.Prelude.{◌≡◌};
ghost use Rattle.pm_auto.specs.declared.error.AutoError.TheVariants.{NoMemory};

use std::alloc::{AllocError, AllocFailed};
use thiserror::Error;

/// Why an automaton was not built.
#[derive(Clone, Copy, Debug, PartialEq, Eq, Error)]
pub enum AutoError {
    /// Both an inline and a block type occur in the expression.
    #[error("inline and block types are mixed")]
    Mixed,
    /// The expansion has more than 4,096 occurrences of types, or more than 1,000 states can be reached.
    #[error("the expression is too wide")]
    TooWide,
    /// There was no memory for the automaton.
    #[error("no memory")]
    NoMemory,
}

impl From<AllocError> for AutoError {
    ghost from_gives = { λ _ e. e ≡ NoMemory };

    fn from(_e: AllocError) -> AutoError {
        AutoError::NoMemory
    }
}

impl<T: Drop> From<AllocFailed<T>> for AutoError {
    ghost from_gives = { λ _ e. e ≡ NoMemory };

    fn from(_e: AllocFailed<T>) -> AutoError {
        AutoError::NoMemory
    }
}
