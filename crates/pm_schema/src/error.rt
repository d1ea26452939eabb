//! Why a schema was not built.
ghost use Rattle.std.specs.Prelude.{◌≡◌};
ghost use Rattle.pm_schema.specs.Carried.{carried};
ghost use Rattle.pm_schema.specs.declared.error.SchemaError.TheVariants.{NoMemory};
ghost use Rattle.pm_schema.specs.declared.error.AttrError.TheVariants as attr_error;

use pm_auto::{AutoError, TypeId};
use std::alloc::{AllocError, AllocFailed};
use thiserror::Error;

/// Why a schema was not built.
#[derive(Clone, Copy, Debug, PartialEq, Eq, Error)]
pub enum SchemaError {
    /// No node type has the top name, or the top name is `text`.
    #[error("there is no top type")]
    NoTop,
    /// No node type is called `text`.
    #[error("there is no type of texts")]
    NoText,
    /// The type `text` has an attribute or content.
    #[error("the type of texts has an attribute or content")]
    TextAttrs,
    /// Two types have one name.
    #[error("two types have one name")]
    DoubleName,
    /// A name in `marks` or `excludes` is that of no mark type and of no group of mark types.
    #[error("a name is no mark type and no group of mark types")]
    UnknownMark,
    /// No automaton could be built for a content expression.
    #[error("content: {0}")]
    Content(AutoError),
    /// In a state of the type's automaton, no types that can be made lead to a valid end.
    #[error("type {kind} has a dead end")]
    DeadEnd { kind: TypeId },
    #[error("no memory")]
    NoMemory,
}

impl From<AllocError> for SchemaError {
    ghost from_gives = { λ _ e. e ≡ NoMemory };

    fn from(_e: AllocError) -> SchemaError {
        SchemaError::NoMemory
    }
}

impl<T: Drop> From<AllocFailed<T>> for SchemaError {
    ghost from_gives = { λ _ e. e ≡ NoMemory };

    fn from(_e: AllocFailed<T>) -> SchemaError {
        SchemaError::NoMemory
    }
}

impl From<AutoError> for SchemaError {
    ghost from_gives = { λ e r. r ≡ carried e };

    fn from(e: AutoError) -> SchemaError {
        match e {
            AutoError::NoMemory => SchemaError::NoMemory,
            other => SchemaError::Content(other),
        }
    }
}

/// Why given names and values are not the attributes of a type.
#[derive(Clone, Copy, Debug, PartialEq, Eq, Error)]
pub enum AttrError {
    /// The first attribute, by its place, that has no default and for which nothing is given.
    #[error("attribute {attr} is missing")]
    Missing { attr: usize },
    /// The first given name, by its place, that no attribute has.
    #[error("no attribute has the given name {index}")]
    Unknown { index: usize },
    /// The first attribute, by its place, for which a value of no kind that it names is given.
    #[error("attribute {attr} has a value of another kind")]
    Kind { attr: usize },
    #[error("no memory")]
    NoMemory,
}

impl From<AllocError> for AttrError {
    ghost from_gives = { λ _ e. e ≡ attr_error.NoMemory };

    fn from(_e: AllocError) -> AttrError {
        AttrError::NoMemory
    }
}

impl<T: Drop> From<AllocFailed<T>> for AttrError {
    ghost from_gives = { λ _ e. e ≡ attr_error.NoMemory };

    fn from(_e: AllocFailed<T>) -> AttrError {
        AttrError::NoMemory
    }
}
