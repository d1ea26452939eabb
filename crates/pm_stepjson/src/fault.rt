//! Why a JSON value is no step.
ghost use Rattle.std.specs.Prelude.{◌≡◌};
ghost use Rattle.pm_stepjson.specs.declared.fault.StepReadError.TheVariants.{NoMemory};
ghost use Rattle.pm_stepjson.specs.Faults.{slice_fault, mark_fault, value_fault};

use pm_docjson::DocReadError;
use pm_value::ValueError;
use std::alloc::{AllocError, AllocFailed};
use thiserror::Error;

/// The first fault of a JSON value that is to be a step, in the order of its fields.
#[derive(Clone, Copy, Debug, PartialEq, Eq, Error)]
pub enum StepReadError {
    #[error("a field is missing that must be there, or is of another kind")]
    Shape,
    #[error("no kind of steps has this name")]
    UnknownKind,
    #[error("the slice: {0}")]
    Slice(DocReadError),
    #[error("the mark: {0}")]
    Mark(DocReadError),
    #[error("no memory")]
    NoMemory,
    #[error("the value: {0}")]
    Value(ValueError),
}

impl From<AllocError> for StepReadError {
    ghost from_gives = { λ _ e. e ≡ NoMemory };

    fn from(_error: AllocError) -> StepReadError {
        StepReadError::NoMemory
    }
}

impl<T: Drop> From<AllocFailed<T>> for StepReadError {
    ghost from_gives = { λ _ e. e ≡ NoMemory };

    fn from(_error: AllocFailed<T>) -> StepReadError {
        StepReadError::NoMemory
    }
}

/// The fault of a step whose slice has this fault.
pub(crate) fn slice_fault(error: DocReadError) -> StepReadError
    ensures { result ≡ slice_fault error }
{
    match error {
        DocReadError::NoMemory => StepReadError::NoMemory,
        _ => StepReadError::Slice(error),
    }
}

/// The fault of a step whose mark has this fault.
pub(crate) fn mark_fault(error: DocReadError) -> StepReadError
    ensures { result ≡ mark_fault error }
{
    match error {
        DocReadError::NoMemory => StepReadError::NoMemory,
        _ => StepReadError::Mark(error),
    }
}

/// The fault of a step whose value has this fault.
pub(crate) fn value_fault(error: ValueError) -> StepReadError
    ensures { result ≡ value_fault error }
{
    match error {
        ValueError::NoMemory => StepReadError::NoMemory,
        _ => StepReadError::Value(error),
    }
}
