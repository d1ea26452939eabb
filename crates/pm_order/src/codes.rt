//! The codes of faults of a schema, and of a type that can't be filled.
ghost use Rattle.std.specs.Prelude.{◌≡◌};
ghost use Rattle.pm_head.specs.Codes.{auto_code as code_of_auto, build_code as code_of_build, schema_code as code_of_schema, fill_code as code_of_fill};

use pm_auto::AutoError;
use pm_head::Code;
use pm_node::FillError;
use pm_schema::SchemaError;
use pm_schemajson::SchemaReadError;

fn auto_code(error: AutoError) -> Option<Code>
    ensures { result ≡ code_of_auto error }
{
    match error {
        AutoError::Mixed | AutoError::TooWide => Some(Code::MixedOrWide),
        AutoError::NoMemory => None,
    }
}

fn build_code(error: SchemaError) -> Option<Code>
    ensures { result ≡ code_of_build error }
{
    match error {
        SchemaError::NoTop
        | SchemaError::NoText
        | SchemaError::TextAttrs
        | SchemaError::DoubleName
        | SchemaError::UnknownMark => Some(Code::NoSchema),
        SchemaError::Content(e) => auto_code(e),
        SchemaError::DeadEnd { kind: _ } => Some(Code::DeadEnd),
        SchemaError::NoMemory => None,
    }
}

/// The code of a value that is no schema; `None` when out of memory.
pub(crate) fn schema_code(error: SchemaReadError) -> Option<Code>
    ensures { result ≡ code_of_schema error }
{
    match error {
        SchemaReadError::Shape { field: _ } => Some(Code::WrongShape),
        SchemaReadError::Name { field: _ } => Some(Code::UnknownName),
        SchemaReadError::Attr(_) => Some(Code::BadAttribute),
        SchemaReadError::BadDefault { attr: _ } => Some(Code::BadAttribute),
        SchemaReadError::Expr { kind: _, error: _ } => Some(Code::BadExpression),
        SchemaReadError::Schema(e) => build_code(e),
        SchemaReadError::NoMemory => None,
    }
}

/// The code of a type that can't be filled; `None` when out of memory.
pub(crate) fn fill_code(error: FillError) -> Option<Code>
    ensures { result ≡ code_of_fill error }
{
    match error {
        FillError::NotGeneratable | FillError::Deep | FillError::Large => Some(
            Code::InvalidDocument,
        ),
        FillError::NoMemory => None,
    }
}
