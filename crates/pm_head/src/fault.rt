//! Where and why an input is refused.
ghost use Rattle.std.specs.Prelude.{◌≡◌};
ghost use Rattle.pm_head.specs.declared.fault.LineError.TheVariants as line;
ghost use Rattle.pm_head.specs.declared.fault.SessionError.TheVariants as session;

use crate::code::Code;
use std::alloc::{AllocError, AllocFailed};
use thiserror::Error;

/// Where and why an input is no session.
#[derive(Clone, Copy, Debug, PartialEq, Eq, Error)]
#[error("refused {line} {}", .code.number())]
pub struct Refusal {
    /// The least faulty line, counted from 1; line 0 for the input as a whole.
    pub line: u32,
    /// The code of its first fault.
    pub code: Code,
}

/// Why an input, or its first three lines, could not be read.
#[derive(Clone, Copy, Debug, PartialEq, Eq, Error)]
pub enum SessionError {
    /// It is no session.
    #[error(transparent)]
    Refused(Refusal),
    /// There was no memory.
    #[error("no memory")]
    NoMemory,
}

/// Why one line could not be read.
#[derive(Clone, Copy, Debug, PartialEq, Eq, Error)]
pub enum LineError {
    /// The code of its first fault.
    #[error("code {}", .0.number())]
    Code(Code),
    /// There was no memory.
    #[error("no memory")]
    NoMemory,
}

impl From<AllocError> for SessionError {
    ghost from_gives = { λ _ e. e ≡ session.NoMemory };

    fn from(_error: AllocError) -> SessionError {
        SessionError::NoMemory
    }
}

impl<T: Drop> From<AllocFailed<T>> for SessionError {
    ghost from_gives = { λ _ e. e ≡ session.NoMemory };

    fn from(_error: AllocFailed<T>) -> SessionError {
        SessionError::NoMemory
    }
}

impl From<AllocError> for LineError {
    ghost from_gives = { λ _ e. e ≡ line.NoMemory };

    fn from(_error: AllocError) -> LineError {
        LineError::NoMemory
    }
}

impl<T: Drop> From<AllocFailed<T>> for LineError {
    ghost from_gives = { λ _ e. e ≡ line.NoMemory };

    fn from(_error: AllocFailed<T>) -> LineError {
        LineError::NoMemory
    }
}
