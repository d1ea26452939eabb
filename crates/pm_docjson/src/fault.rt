//! Why a JSON value is no node and no mark.
ghost use Rattle.std.specs.Prelude.{◌≡◌};
ghost use Rattle.pm_docjson.specs.declared.fault.DocReadError.TheVariants.{NoMemory};

use std::alloc::{AllocError, AllocFailed};
use thiserror::Error;

/// The first fault of a JSON value that is to be a node, a mark or a slice, depth first.
#[derive(Clone, Copy, Debug, PartialEq, Eq, Error)]
pub enum DocReadError {
    #[error("a field is missing that must be there, or is of another kind")]
    Shape,
    #[error("no type has this name")]
    UnknownType,
    #[error("attributes that the type does not have, or values that are none")]
    Attr,
    #[error("an empty text")]
    EmptyText,
    #[error("marks that are no set")]
    NotASet,
    #[error("an open side that is deeper than the content")]
    Open,
    #[error("no memory")]
    NoMemory,
    #[error("a list of nodes with more than 4,294,967,295 tokens")]
    Large,
}

impl From<AllocError> for DocReadError {
    ghost from_gives = { λ _ e. e ≡ NoMemory };

    fn from(_error: AllocError) -> DocReadError {
        DocReadError::NoMemory
    }
}

impl<T: Drop> From<AllocFailed<T>> for DocReadError {
    ghost from_gives = { λ _ e. e ≡ NoMemory };

    fn from(_error: AllocFailed<T>) -> DocReadError {
        DocReadError::NoMemory
    }
}
