//! Reading a schema.
ghost use Rattle.std.specs.Prelude.{◌≡◌, Ok, IfOk, IfErr};
ghost use Rattle.pm_schema.specs.Defaults.{HasShallowDefaults};
ghost use Rattle.pm_schemajson.specs.Answers.{Gives};
ghost use Rattle.pm_schemajson.specs.Contents.{schema_of};
ghost use Rattle.pm_schemajson.specs.Views.{types_of_spec, IsFault, IsSchemaOf};

use crate::error::{Field, SchemaReadError};
use crate::exprs::contents;
use crate::fields::{array, text_or};
use crate::marks::marks_of;
use crate::nodes::node_list;
use crate::versions::version_of;
use pm_json::JsonRef;
use pm_schema::{Schema, SchemaSpec};
use std::alloc::Global;

/// The schema that a JSON object writes: `version`, the whole number 1 or 2, 1 where it is absent; `nodes`, a list of node types;
/// `marks`, a list of mark types, none where it is absent; `topNode`, the name of the top node's type, `doc` where it is absent.
/// A field that may be absent may be null; a `default` of null is a default. Each default nests at most four levels deep
/// (`shallow`).
/// - A node type has `name`, `content` (a content expression, empty where it is absent), `group` (names with blanks between),
///   `marks` (a text), `inline`, `atom` (both false where they are absent) and `attrs`.
/// - A mark type has `name`, `attrs`, `inclusive` (true where it is absent), `excludes` (a text) and `group`.
/// - In `attrs` each member is an attribute, an object whose `default` is the default, and whose `validate` in version 2 is a
///   text that names the kinds of values that it may have: one or more of `string`, `number`, `boolean` and `null` with `|`
///   between.
///
/// # Errors
///
/// The first fault: fields in this order, lists from the front, attributes in byte order of their names; then `Expr`, then
/// `Schema`.
/// - `Shape`: a field is absent or of another kind.
/// - `Name`: a name in `name` or `group` is ill-formed.
/// - `Attr`: a default is no value.
/// - `BadDefault`: a default is of no kind that its attribute names.
/// - `Expr`: the content of a node type is no expression, with the first such type.
/// - `Schema`: the types make no schema.
pub fn read_schema<J: JsonRef>(alloc: Global, json: J) -> Result<Schema, SchemaReadError>
    ensures built { IfOk result (IsSchemaOf (J.seen json)) }
    ensures shallow { IfOk result (λ s. HasShallowDefaults s.spec) }
    ensures fault { IfErr result (IsFault (J.seen json)) }
{
    let spec = read_spec(alloc, json)?;
    let schema = Schema::build(alloc, spec)?;
    Ok(schema)
}

#[tactic(auto, unfolding(crate::specs::Contents::schema_of, crate::specs::Reading::types_of))]
fn read_spec<J: JsonRef>(alloc: Global, json: J) -> Result<SchemaSpec, SchemaReadError>
    ensures { Gives types_of_spec result (schema_of (J.seen json)) }
{
    let version = version_of(json)?;
    let value = json.get("nodes").ok_or(SchemaReadError::Shape {
        field: Field::Nodes,
    })?;
    let items = array(alloc, value, Field::Nodes)?;
    let texts = node_list(alloc, version, items.as_slice())?;
    let marks = marks_of(alloc, version, json)?;
    let top = text_or(alloc, json, "topNode", Field::TopNode, "doc")?;
    let nodes = contents(alloc, texts)?;
    Ok(SchemaSpec {
        nodes,
        marks,
        top,
        version,
    })
}
