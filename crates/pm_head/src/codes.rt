//! The codes of faults.
ghost use Rattle.std.specs.Prelude.{◌≡◌};
ghost use Rattle.pm_head.specs.Codes.{auto_code as code_of_auto, build_code as code_of_build, schema_code as code_of_schema, node_code as code_of_node, fill_code as code_of_fill};

use crate::code::Code;
use pm_auto::AutoError;
use pm_docjson::DocReadError;
use pm_node::FillError;
use pm_schema::SchemaError;
use pm_schemajson::SchemaReadError;

fn auto_code(error: AutoError) -> Option<Code>
    ensures { result ≡ code_of_auto error }
{
    match error {
        AutoError::Mixed | AutoError::TooWide => Some(Code::MixedOrWide),
        AutoError::NoMemory => None,
    }
}

fn build_code(error: SchemaError) -> Option<Code>
    ensures { result ≡ code_of_build error }
{
    match error {
        SchemaError::NoTop
        | SchemaError::NoText
        | SchemaError::TextAttrs
        | SchemaError::DoubleName
        | SchemaError::UnknownMark => Some(Code::NoSchema),
        SchemaError::Content(e) => auto_code(e),
        SchemaError::DeadEnd { kind: _ } => Some(Code::DeadEnd),
        SchemaError::NoMemory => None,
    }
}

/// The code of a value that is no schema; `None` when out of memory.
pub fn schema_code(error: SchemaReadError) -> Option<Code>
    ensures { result ≡ code_of_schema error }
{
    match error {
        SchemaReadError::Shape { field: _ } => Some(Code::WrongShape),
        SchemaReadError::Name { field: _ } => Some(Code::UnknownName),
        SchemaReadError::Attr(_) => Some(Code::BadAttribute),
        SchemaReadError::BadDefault { attr: _ } => Some(Code::BadAttribute),
        SchemaReadError::Expr { kind: _, error: _ } => Some(Code::BadExpression),
        SchemaReadError::Schema(e) => build_code(e),
        SchemaReadError::NoMemory => None,
    }
}

/// The code of a value that is no node; `None` when out of memory.
pub fn node_code(error: DocReadError) -> Option<Code>
    ensures { result ≡ code_of_node error }
{
    match error {
        DocReadError::Shape => Some(Code::WrongShape),
        DocReadError::UnknownType => Some(Code::UnknownName),
        DocReadError::Attr => Some(Code::BadAttribute),
        DocReadError::EmptyText => Some(Code::EmptyText),
        DocReadError::NotASet => Some(Code::NotASet),
        DocReadError::Open | DocReadError::Large => Some(Code::OpenOrLarge),
        DocReadError::NoMemory => None,
    }
}

/// The code of a type that can't be filled; `None` when out of memory.
pub fn fill_code(error: FillError) -> Option<Code>
    ensures { result ≡ code_of_fill error }
{
    match error {
        FillError::NotGeneratable | FillError::Deep | FillError::Large => Some(
            Code::InvalidDocument,
        ),
        FillError::NoMemory => None,
    }
}
