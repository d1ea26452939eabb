//! What is wrong with a document.
ghost use Rattle.std.specs.Prelude.{◌≡◌};
ghost use Rattle.pm_node.specs.declared.fault.CheckError.TheVariants.{NoMemory};

use std::alloc::{AllocError, AllocFailed};
use thiserror::Error;

/// The first fault of a document. Place 0 is the top node, and place p + 1 the node or unit whose token is the p-th.
#[derive(Clone, Copy, Debug, PartialEq, Eq, Error)]
pub enum CheckError {
    #[error("the node at place {at} may not stand so, or its children may not stand in it")]
    Content { at: usize },
    #[error("the marks at place {at} are no set that the parent allows")]
    Marks { at: usize },
    #[error("the attributes at place {at} are not those that the type declares")]
    Attrs { at: usize },
    #[error("a position is in more than 48 nodes")]
    Deep,
    #[error("there are more tokens than the schema allows")]
    Large,
    #[error("the unit at place {at} is a surrogate in no pair")]
    Pair { at: usize },
    #[error("no memory")]
    NoMemory,
}

impl From<AllocError> for CheckError {
    ghost from_gives = { λ _ e. e ≡ NoMemory };

    fn from(_error: AllocError) -> CheckError {
        CheckError::NoMemory
    }
}

impl<T: Drop> From<AllocFailed<T>> for CheckError {
    ghost from_gives = { λ _ e. e ≡ NoMemory };

    fn from(_error: AllocFailed<T>) -> CheckError {
        CheckError::NoMemory
    }
}
