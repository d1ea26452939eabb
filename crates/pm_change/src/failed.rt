//! Why a change gave no document.
ghost use Rattle.std.specs.Prelude.{◌≡◌};
ghost use Rattle.pm_change.specs.declared.failed.Failed.TheVariants.{NoMemory};

use std::alloc::{AllocError, AllocFailed};

/// The reason why a change does not apply, or running out of memory.
#[derive(Drop, Debug)]
pub enum Failed<R> {
    Reason(R),
    NoMemory,
}

impl<R> From<AllocError> for Failed<R> {
    ghost from_gives = { λ _ e. e ≡ NoMemory };

    fn from(_error: AllocError) -> Failed<R> {
        Failed::NoMemory
    }
}

impl<R, T: Drop> From<AllocFailed<T>> for Failed<R> {
    ghost from_gives = { λ _ e. e ≡ NoMemory };

    fn from(_error: AllocFailed<T>) -> Failed<R> {
        Failed::NoMemory
    }
}
