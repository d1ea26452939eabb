//! What a client tells of the steps that it received, and why it did not take them.
ghost use Rattle.std.specs.Prelude.{◌≡◌};
ghost use Rattle.pm_remote.specs.declared.received.ReceiveError.TheVariants.{NoMemory};

use std::alloc::{AllocError, AllocFailed};
use thiserror::Error;

/// What became of the pending steps when others' steps were taken.
#[derive(Drop)]
pub struct Received<C> {
    /// What takes the pending steps back that did not stand in the log. None exactly where it does not apply.
    pub back: Option<Back<C>>,
    /// How many of these pending steps were lost.
    pub dropped: u64,
}

/// The steps that take pending steps back, the last pending step's first.
#[derive(Drop)]
pub struct Back<C> {
    pub steps: Vec<C>,
    /// How many of `steps` take back each pending step, the last one's first.
    pub sizes: Vec<usize>,
}

/// Why others' steps were not taken.
#[derive(Drop, Debug, Error)]
pub enum ReceiveError<R> {
    /// Step `index` of others', counted from 0, is the first that does not apply, for this reason.
    #[error("step {index} does not apply")]
    Refused { index: u64, reason: R },
    /// Memory ran out, or the numbers of 64 bits did.
    #[error("out of memory")]
    NoMemory,
}

impl<R> From<AllocError> for ReceiveError<R> {
    ghost from_gives = { λ _ e. e ≡ NoMemory };

    fn from(_error: AllocError) -> ReceiveError<R> {
        ReceiveError::NoMemory
    }
}

impl<R, T: Drop> From<AllocFailed<T>> for ReceiveError<R> {
    ghost from_gives = { λ _ e. e ≡ NoMemory };

    fn from(_error: AllocFailed<T>) -> ReceiveError<R> {
        ReceiveError::NoMemory
    }
}
