//! Why a text is no content expression.
ghost use Rattle.std.specs.Prelude.{◌≡◌};
ghost use Rattle.pm_expr.specs.declared.error.ExprError.TheVariants.{NoMemory};

use std::alloc::{AllocError, AllocFailed};
use thiserror::Error;

/// Why a text is no content expression. Places are counted in bytes from 0.
#[derive(Clone, Copy, Debug, PartialEq, Eq, Error)]
pub enum ExprError {
    /// The token that begins here can't stand here, or the text ends too early, and then this is its length.
    #[error("a content expression can't go on like this at byte {at}")]
    Syntax { at: usize },
    /// The name that begins here is that of no type and of no group.
    #[error("no type and no group has the name at byte {at}")]
    UnknownName { at: usize },
    /// The braces that open here have a number above 64, or a second number below the first.
    #[error("numbers out of range at byte {at}")]
    Range { at: usize },
    /// By the token that begins here an item gets more than 500 levels of brackets and suffixes. Walks over an expression
    /// take stack for each of its levels.
    #[error("a content expression nests too deep at byte {at}")]
    Deep { at: usize },
    /// There was no memory for the expression.
    #[error("no memory")]
    NoMemory,
}

impl From<AllocError> for ExprError {
    ghost from_gives = { λ _ e. e ≡ NoMemory };

    fn from(_e: AllocError) -> ExprError {
        ExprError::NoMemory
    }
}

impl<T: Drop> From<AllocFailed<T>> for ExprError {
    ghost from_gives = { λ _ e. e ≡ NoMemory };

    fn from(_e: AllocFailed<T>) -> ExprError {
        ExprError::NoMemory
    }
}
