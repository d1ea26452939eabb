//! Why a part of a content cannot be put after another.
ghost use Rattle.std.specs.Prelude.{◌≡◌};
ghost use Rattle.pm_build.specs.declared.refused.Refused.TheVariants.{NoMemory};

use std::alloc::{AllocError, AllocFailed};
use thiserror::Error;

/// Why a builder refuses a part.
#[derive(Clone, Copy, Debug, PartialEq, Eq, Error)]
pub enum Refused {
    #[error("a close meets no open node of a compatible type")]
    Join,
    #[error("no memory")]
    NoMemory,
}

impl From<AllocError> for Refused {
    ghost from_gives = { λ _ e. e ≡ NoMemory };

    fn from(_error: AllocError) -> Refused {
        Refused::NoMemory
    }
}

impl<T: Drop> From<AllocFailed<T>> for Refused {
    ghost from_gives = { λ _ e. e ≡ NoMemory };

    fn from(_error: AllocFailed<T>) -> Refused {
        Refused::NoMemory
    }
}
