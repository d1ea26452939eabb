//! Line 1: the schema.
ghost use Rattle.std.specs.Prelude.{◌≡◌, Some, IfSome};
ghost use Rattle.json.specs.Value.{value_view};
ghost use Rattle.serde_json.specs.Data.{Data};
ghost use Rattle.serde_json.specs.Read.{of_json};
ghost use Rattle.pm_head.specs.Answers.{Finds};
ghost use Rattle.pm_head.specs.Schemas.{SchemaIs, SchemaLine};

use crate::codes::schema_code;
use crate::fault::LineError;
use crate::lines::{json_line, tree_line};
use json::{Scratch, Value as Tree};
use pm_json::{JsonRef, TreeRef};
use pm_schema::Schema;
use pm_schemajson::read_schema;
use std::alloc::{AllocError, Global};

/// The schema that line 1 writes. An error says the code of its first fault, or that there was no memory.
pub fn schema_line(alloc: Global, line: &[u8]) -> Result<Schema, LineError>
    ensures { Finds (SchemaLine line.now) result }
{
    match schema_at_once(alloc, line) {
        Some(read) => read,
        None => {
            let json = json_line(alloc, line)?;
            schema_of(alloc, &json)
        }
    }
}

/// What is read of the line without a value of it. A line that is no JSON is left, and gets its code as a value.
fn schema_at_once(alloc: Global, line: &[u8]) -> Option<Result<Schema, LineError>>
    ensures { IfSome result (Finds (SchemaLine line.now)) }
{
    let mut scratch = Scratch::new(alloc);
    match tree_line(alloc, line, &mut scratch) {
        Ok(Some(tree)) => schema_of_tree(alloc, &tree),
        Ok(None) => None,
        Err(AllocError) => Some(Err(LineError::NoMemory)),
    }
}

/// What is read of a tree, where each number in it is in the range of one.
fn schema_of_tree(alloc: Global, tree: &Tree<'_>) -> Option<Result<Schema, LineError>>
    ensures { IfSome result (λ r. (d : Data) × (of_json (value_view tree.now) ≡ Some d) × Finds (SchemaIs d) r) }
{
    match TreeRef::new(tree) {
        Some(json) => Some(schema_of(alloc, json)),
        None => None,
    }
}

/// The schema that a value is, or the code of its first fault.
pub fn schema_of<J: JsonRef>(alloc: Global, json: J) -> Result<Schema, LineError>
    ensures { Finds (SchemaIs (J.seen json)) result }
{
    match read_schema(alloc, json) {
        Ok(schema) => Ok(schema),
        Err(error) => match schema_code(error) {
            Some(code) => Err(LineError::Code(code)),
            None => Err(LineError::NoMemory),
        },
    }
}
