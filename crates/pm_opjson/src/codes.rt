//! The codes of the faults of steps and of what edits put in or set. Running out of memory has none, and is `NoMemory`.
ghost use Rattle.std.specs.Prelude.{◌≡◌};
ghost use Rattle.pm_head.specs.Codes.{node_code};
ghost use Rattle.pm_opjson.specs.Codes.{step_code, value_code};
ghost use Rattle.pm_opjson.specs.Faults.{fault_of};

use pm_docjson::DocReadError;
use pm_head::{Code, LineError, node_code};
use pm_stepjson::StepReadError;
use pm_value::ValueError;

/// The fault of a line whose step has this fault: `WrongShape`, `UnknownName` for a kind of step, those of `node_fault` for a
/// slice or a mark, or those of `value_fault`.
pub fn step_fault(error: StepReadError) -> LineError
    ensures { result ≡ fault_of (step_code error) }
{
    fault_of(step_code(error))
}

/// The fault of a line whose node, mark, slice or attributes have this fault, by `node_code` of pm_head.
pub fn node_fault(error: DocReadError) -> LineError
    ensures { result ≡ fault_of (node_code error) }
{
    fault_of(node_code(error))
}

/// The fault of a line whose attribute value has this fault: `BadAttribute`.
pub fn value_fault(error: ValueError) -> LineError
    ensures { result ≡ fault_of (value_code error) }
{
    fault_of(value_code(error))
}

/// The code of a JSON value that is no value of an attribute; `None` when out of memory.
fn value_code(error: ValueError) -> Option<Code>
    ensures { result ≡ value_code error }
{
    match error {
        ValueError::Float | ValueError::Wide | ValueError::Deep => Some(Code::BadAttribute),
        ValueError::NoMemory => None,
    }
}

/// The code of a JSON value that is no step; `None` when out of memory.
fn step_code(error: StepReadError) -> Option<Code>
    ensures { result ≡ step_code error }
{
    match error {
        StepReadError::Shape => Some(Code::WrongShape),
        StepReadError::UnknownKind => Some(Code::UnknownName),
        StepReadError::Slice(e) | StepReadError::Mark(e) => node_code(e),
        StepReadError::NoMemory => None,
        StepReadError::Value(e) => value_code(e),
    }
}

fn fault_of(code: Option<Code>) -> LineError
    ensures { result ≡ fault_of code }
{
    match code {
        Some(code) => LineError::Code(code),
        None => LineError::NoMemory,
    }
}
