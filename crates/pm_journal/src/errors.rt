//! Why a call on a journal fails.
ghost use Rattle.std.specs.Prelude.{◌≡◌};

use std::alloc::{AllocError, AllocFailed};
use std::io;

/// Why lines were not added.
#[derive(Debug, Drop)]
pub enum AppendError {
    /// A call of the disk failed, as on a full disk. The lines may be in the file or not: it has to be opened again.
    Failed(io::Error),
    /// The file would have 2^64 bytes or more. No line was added.
    TooLong,
}

impl From<io::Error> for AppendError {
    ghost use Rattle.pm_journal.specs.declared.errors.AppendError.TheVariants.{Failed};

    ghost from_gives = { λ x e. e ≡ Failed x };

    fn from(error: io::Error) -> AppendError {
        AppendError::Failed(error)
    }
}

/// Why the lines of a file are not known.
#[derive(Debug, Drop)]
pub enum RecoverError {
    /// A call of the disk failed.
    Failed(io::Error),
    /// There is no memory for the file and its lines.
    Memory,
    /// It is no file of lines, or it has none.
    Broken,
}

impl From<io::Error> for RecoverError {
    ghost use Rattle.pm_journal.specs.declared.errors.RecoverError.TheVariants.{Failed};

    ghost from_gives = { λ x e. e ≡ Failed x };

    fn from(error: io::Error) -> RecoverError {
        RecoverError::Failed(error)
    }
}

impl From<AllocError> for RecoverError {
    ghost use Rattle.pm_journal.specs.declared.errors.RecoverError.TheVariants.{Memory};

    ghost from_gives = { λ _ e. e ≡ Memory };

    fn from(_: AllocError) -> RecoverError {
        RecoverError::Memory
    }
}

impl<T: Drop> From<AllocFailed<T>> for RecoverError {
    ghost use Rattle.pm_journal.specs.declared.errors.RecoverError.TheVariants.{Memory};

    ghost from_gives = { λ _ e. e ≡ Memory };

    fn from(_: AllocFailed<T>) -> RecoverError {
        RecoverError::Memory
    }
}
