//! Attributes.
ghost use Rattle.std.specs.Prelude.{◌≡◌, ◌<◌, ◌++◌, length, codes, OnOk, IfOk, string_bytes};
ghost use Rattle.serde_json.specs.View.{view, members_view};
ghost use Rattle.serde_json.specs.Data.{object};
ghost use Rattle.serde_json.specs.Written.{compact_text};
ghost use Rattle.pm_value.specs.Views.{plains};
ghost use Rattle.pm_schema.specs.Attrs.{IsType, attrs_of};
ghost use Rattle.pm_schema.specs.Types.{node_at};
ghost use Rattle.pm_docjson.specs.Members.{attr_members};
ghost use Rattle.pm_docjson.specs.Values.{keys};
ghost use Rattle.pm_doctext.specs.Texts.{attrs_text};

use pm_attrs::Attrs;
use pm_auto::TypeId;
use pm_schema::{AnyType, Schema};
use pm_value::Value;
use serde_json::{Map, Value as Json, put};
use std::alloc::{AllocError, Global};

/// Puts the member `attrs` of a node after the text, where its type has some: as many as it declares and values are there.
#[tactic(auto, using(crate::proofs::Whole::filled))]
pub(crate) fn push_attrs(
    alloc: Global,
    schema: &Schema,
    text: &mut String,
    kind: TypeId,
    attrs: &Attrs,
) -> Result<(), AllocError>
    ensures { OnOk result (string_bytes text.new ≡ string_bytes text.old ++ attrs_text (keys (node_at schema.now.spec kind).attrs) attrs.now) }
{
    if attr_count(schema, kind) == 0 {
        return Ok(());
    }
    let written = object_text(alloc, schema, kind, attrs.values())?;
    push_member(text, written.as_str())
}

/// The member `attrs` with this value, and the comma after it.
fn push_member(text: &mut String, value: &str) -> Result<(), AllocError>
    ensures { OnOk result (string_bytes text.new ≡ string_bytes text.old ++ (codes "\"attrs\":" ++ (value.now ++ codes ","))) }
{
    text.push_str("\"attrs\":")?;
    text.push_str(value)?;
    text.push_str(",")
}

/// How many attributes a type declares; a type beyond the last has none.
fn attr_count(schema: &Schema, kind: TypeId) -> usize
    ensures count { result ≡ length (node_at schema.now.spec kind).attrs }
    ensures known { 0 < result → IsType schema.now.spec (AnyType.Node kind) }
{
    if kind < schema.node_count() {
        schema.attr_count(AnyType::Node(kind))
    } else {
        0
    }
}

/// The text of the values under their names. It is small.
#[tactic(auto, using(crate::proofs::Whole::whole))]
fn object_text(
    alloc: Global,
    schema: &Schema,
    kind: TypeId,
    values: &[Value],
) -> Result<String, AllocError>
    requires { IsType schema.now.spec (AnyType.Node kind) }
    ensures { IfOk result (λ t. string_bytes t ≡ compact_text (object (attr_members (keys (node_at schema.now.spec kind).attrs) (plains values.now)))) }
{
    let value = object_json(alloc, schema, kind, values)?;
    value.to_string(alloc)
}

#[tactic(auto, using(crate::proofs::Whole::views))]
fn object_json(
    alloc: Global,
    schema: &Schema,
    kind: TypeId,
    values: &[Value],
) -> Result<Json, AllocError>
    requires { IsType schema.now.spec (AnyType.Node kind) }
    ensures { IfOk result (λ j. view j ≡ object (attr_members (keys (node_at schema.now.spec kind).attrs) (plains values.now))) }
{
    let object = attr_object(alloc, schema, AnyType::Node(kind), values)?;
    Ok(Json::Object(object))
}

/// The values under their names.
fn attr_object(
    alloc: Global,
    schema: &Schema,
    kind: AnyType,
    values: &[Value],
) -> Result<Map<String, Json>, AllocError>
    requires { IsType schema.now.spec kind }
    ensures { IfOk result (λ m. members_view m.entries ≡ attr_members (keys (attrs_of schema.now.spec kind)) (plains values.now)) }
{
    let mut map = Map::new(alloc);
    let mut i = schema.attr_count(kind).min(values.len());
    while i > 0 {
        i -= 1;
        let json = values[i].to_json(alloc)?;
        put(&mut map, alloc, schema.attr_name(kind, i), json)?;
    }
    Ok(map)
}
