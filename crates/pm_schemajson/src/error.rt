//! Why a JSON value is no schema.
ghost use Rattle.std.specs.Prelude.{◌≡◌};
ghost use Rattle.pm_schemajson.specs.Carried.{value_carried, schema_carried};
ghost use Rattle.pm_schemajson.specs.declared.error.SchemaReadError.TheVariants.{NoMemory};

use pm_auto::TypeId;
use pm_expr::ExprError;
use pm_schema::SchemaError;
use pm_value::ValueError;
use std::alloc::{AllocError, AllocFailed};
use thiserror::Error;

/// A field of a schema's JSON. Of an object that must be there and is something else, the field of the list in which it
/// stands; `Marks` is the list of mark types and the field `marks` of a node type.
#[derive(Clone, Copy, Debug, PartialEq, Eq)]
pub enum Field {
    Version,
    Nodes,
    Marks,
    TopNode,
    Name,
    Content,
    Group,
    Inline,
    Atom,
    Attrs,
    Validate,
    Inclusive,
    Excludes,
}

/// The first fault of a JSON value that is to be a schema.
#[derive(Clone, Copy, Debug, PartialEq, Eq, Error)]
pub enum SchemaReadError {
    /// The field is absent and must be there, or is of another kind than it must be. A value that is no object lacks `nodes`.
    #[error("the field {field:?} is absent or of another kind")]
    Shape { field: Field },
    /// The content expression of this node type has a fault.
    #[error("the content of type {kind}: {error}")]
    Expr { kind: TypeId, error: ExprError },
    /// No schema can be built of the types.
    #[error("{0}")]
    Schema(SchemaError),
    /// A default is no value.
    #[error("a default: {0}")]
    Attr(ValueError),
    /// There was no memory.
    #[error("no memory")]
    NoMemory,
    /// A name is not 1 to 64 ASCII letters, digits and `_`, or it is `_` alone.
    #[error("an ill-formed name in {field:?}")]
    Name { field: Field },
    /// The default of the attribute of this place, in byte order of the names of its type, is of no kind that the attribute
    /// names.
    #[error("the default of attribute {attr} is of another kind")]
    BadDefault { attr: usize },
}

impl From<AllocError> for SchemaReadError {
    ghost from_gives = { λ _ e. e ≡ NoMemory };

    fn from(_e: AllocError) -> SchemaReadError {
        SchemaReadError::NoMemory
    }
}

impl<T: Drop> From<AllocFailed<T>> for SchemaReadError {
    ghost from_gives = { λ _ e. e ≡ NoMemory };

    fn from(_e: AllocFailed<T>) -> SchemaReadError {
        SchemaReadError::NoMemory
    }
}

impl From<ValueError> for SchemaReadError {
    ghost from_gives = { λ e r. r ≡ value_carried e };

    fn from(e: ValueError) -> SchemaReadError {
        match e {
            ValueError::NoMemory => SchemaReadError::NoMemory,
            other => SchemaReadError::Attr(other),
        }
    }
}

impl From<SchemaError> for SchemaReadError {
    ghost from_gives = { λ e r. r ≡ schema_carried e };

    fn from(e: SchemaError) -> SchemaReadError {
        match e {
            SchemaError::NoMemory => SchemaReadError::NoMemory,
            other => SchemaReadError::Schema(other),
        }
    }
}
