//! Nodes as JSON values.
ghost use Rattle.std.specs.Prelude.{◌≡◌, ◌<◌, ◌==◌, [], true, false, map, codes, IfOk, OnOk, Ok, Some, length, string_bytes};
ghost use Rattle.std.specs.List.{AllByRecursion};
ghost use Rattle.std.specs.Arc.{arc_value};
ghost use Rattle.serde_json.specs.View.{view, items_view, items_of, members_view};
ghost use Rattle.pm_text.specs.Units.{utf16, utf8};
ghost use Rattle.pm_text.specs.Lone.{HasNoLone};
ghost use Rattle.serde_json.specs.Data.{string};
ghost use Rattle.pm_schema.specs.Documents.{documents_of};
ghost use Rattle.pm_schema.specs.Names.{place_of};
ghost use Rattle.pm_schema.specs.Types.{fit_attrs, names_of_nodes, node_at};
ghost use Rattle.pm_docjson.specs.declared.leaves.LeafContent.{LeafContent};
ghost use Rattle.pm_docjson.specs.Values.{keys};
ghost use Rattle.pm_docjson.specs.Members.{attrs_field, put_list};
ghost use Rattle.pm_docjson.specs.Reading.{attrs_read, mark_of, node_of, node_list};
ghost use Rattle.pm_docjson.specs.Writing.{mark_written, text_written, branch_written, node_written, nodes_written, as_read};
ghost use Rattle.pm_docjson.specs.Writable.{mark_fits, IsWritable, AreWritable};

use crate::types::{node_name, text_type};
use crate::writing_attrs::put_attrs;
use crate::writing_marks::{typed, write_marks};
use pm_attrs::Attrs;
use pm_auto::TypeId;
use pm_marks::Mark;
use pm_node::{Body, Children, Fragment, Node, Units};
use pm_schema::{AnyType, Schema};
use serde_json::{Map, Value as Json, put};
use std::alloc::{AllocError, Global};

/// The JSON value of a node. Where the node can be written, it is read back as the same node, and a text as one of the type of
/// texts. Else it is written all the same: a unit of no pair as U+FFFD, a type beyond the last without name and attributes, and
/// as many attributes as are declared and have values.
pub fn write_node(alloc: Global, schema: &Schema, node: &Node) -> Result<Json, AllocError>
    ensures written { IfOk result (λ j. view j ≡ node_written schema.now.spec node.now) }
    ensures again { IfOk result (λ j. IsWritable schema.now.spec node.now
        → (l : LeafContent) → node_of schema.now.spec l (view j) ≡ Ok (as_read schema.now.spec node.now)) }
{
    node_json(alloc, schema, node)
}

/// The JSON values of a content, which are read back as the same content where it can be written.
pub fn write_nodes(
    alloc: Global,
    schema: &Schema,
    content: &Fragment,
) -> Result<Vec<Json>, AllocError>
    ensures written { IfOk result (λ v. items_view v.items ≡ nodes_written schema.now.spec content.now) }
    ensures again { OnOk result (AreWritable schema.now.spec content.now
        → (l : LeafContent) → node_list schema.now.spec l (nodes_written schema.now.spec content.now) ≡ Ok content.now) }
{
    let _ = content.size();
    let items = nodes_json(alloc, schema, &content.children())?;
    Ok(items)
}

#[cycle(write)]
fn node_json(alloc: Global, schema: &Schema, node: &Node) -> Result<Json, AllocError>
    ensures written { IfOk result (λ j. view j ≡ node_written schema.now.spec node.now) }
    ensures again { OnOk result (IsWritable schema.now.spec node.now
        → (l : LeafContent) → node_of schema.now.spec l (node_written schema.now.spec node.now) ≡ Ok (as_read schema.now.spec node.now)) }
{
    let marks = node.marks.marks();
    match &node.body {
        Body::Text(units) => {
            let json = text_json(alloc, schema, units, marks)?;
            Ok(json)
        }
        Body::Leaf => {
            let none = Vec::new(alloc);
            let json = branch_json(alloc, schema, node.kind, &node.attrs, marks, none)?;
            Ok(json)
        }
        Body::Children(content) => {
            let _ = content.size();
            let items = nodes_json(alloc, schema, &content.children())?;
            let json = branch_json(alloc, schema, node.kind, &node.attrs, marks, items)?;
            Ok(json)
        }
    }
}

/// The JSON values of nodes.
#[cycle(write)]
fn nodes_json(alloc: Global, schema: &Schema, nodes: &Children<'_>) -> Result<Vec<Json>, AllocError>
    ensures written { IfOk result (λ v. items_view v.items ≡ items_of (map (λ x. node_written schema.now.spec (arc_value x)) nodes.now)) }
    ensures again { OnOk result (AllByRecursion (λ x. IsWritable schema.now.spec (arc_value x)
        → (l : LeafContent) → node_of schema.now.spec l (node_written schema.now.spec (arc_value x)) ≡ Ok (as_read schema.now.spec (arc_value x))) nodes.now) }
{
    let mut items = Vec::new(alloc);
    for i in 0..nodes.len() {
        items.push(node_json(alloc, schema, nodes.get(i))?)?;
    }
    Ok(items)
}

/// The JSON value of a text of these units and marks.
#[tactic(auto, using(crate::proofs::ObjectLaws::puts))]
pub(crate) fn text_json(
    alloc: Global,
    schema: &Schema,
    units: &Units,
    marks: &[Mark<Attrs>],
) -> Result<Json, AllocError>
    ensures written { IfOk result (λ j. view j ≡ text_written schema.now.spec units.now marks.now) }
    ensures named { OnOk result (place_of (node_at schema.now.spec (documents_of schema.now.spec).text).name
        (names_of_nodes schema.now.spec) ≡ Some (documents_of schema.now.spec).text) }
    ensures plain { OnOk result ((node_at schema.now.spec (documents_of schema.now.spec).text).attrs ≡ []) }
    ensures units { OnOk result (HasNoLone units.now → utf16 (utf8 units.now) ≡ units.now) }
    ensures again { OnOk result (AllByRecursion (λ m. mark_fits schema.now.spec m ≡ true
        → mark_of schema.now.spec (mark_written schema.now.spec m) ≡ Ok m) marks.now) }
{
    let name = schema.node_name(text_type(schema));
    let mut map = typed(alloc, name)?;
    let text = text_value(alloc, units)?;
    put(&mut map, alloc, "text", text)?;
    let marks = write_marks(alloc, schema, marks)?;
    put_list(&mut map, alloc, "marks", marks)?;
    Ok(Json::Object(map))
}

/// The text that the units spell, with U+FFFD for each unit of no pair.
fn text_value(alloc: Global, units: &Units) -> Result<Json, AllocError>
    ensures written { IfOk result (λ j. view j ≡ string (utf8 units.now)) }
    ensures units { OnOk result (HasNoLone units.now → utf16 (utf8 units.now) ≡ units.now) }
{
    let text = units.lossy_text(alloc)?;
    Ok(string_json(text))
}

/// The JSON value of a text. It takes no memory.
fn string_json(text: String) -> Json
    ensures { view result ≡ string (string_bytes text) }
{
    Json::String(text)
}

/// The JSON value of a node that is no text, with the JSON values of its children.
#[tactic(auto, using(crate::proofs::ObjectLaws::puts))]
pub(crate) fn branch_json(
    alloc: Global,
    schema: &Schema,
    kind: TypeId,
    attrs: &Attrs,
    marks: &[Mark<Attrs>],
    content: Vec<Json>,
) -> Result<Json, AllocError>
    ensures written { IfOk result (λ j. view j
        ≡ branch_written schema.now.spec kind attrs.now marks.now (items_view content.items)) }
    ensures named { OnOk result (kind < length schema.now.spec.nodes
        → place_of (node_at schema.now.spec kind).name (names_of_nodes schema.now.spec) ≡ Some kind) }
    ensures attrs { OnOk result (fit_attrs (node_at schema.now.spec kind).attrs attrs.now ≡ true
        → attrs_read (node_at schema.now.spec kind).attrs (attrs_field (keys (node_at schema.now.spec kind).attrs) attrs.now) ≡ Ok attrs.now) }
    ensures again { OnOk result (AllByRecursion (λ m. mark_fits schema.now.spec m ≡ true
        → mark_of schema.now.spec (mark_written schema.now.spec m) ≡ Ok m) marks.now) }
{
    let name = node_name(schema, kind);
    let mut map = typed(alloc, name)?;
    let marks = write_marks(alloc, schema, marks)?;
    put_list(&mut map, alloc, "marks", marks)?;
    put_list(&mut map, alloc, "content", content)?;
    put_attrs(&mut map, alloc, schema, AnyType::Node(kind), attrs)?;
    Ok(Json::Object(map))
}

/// Puts a list in, where it is not empty.
#[tactic(auto, using(crate::proofs::ListPuts::filled))]
fn put_list(
    map: &mut Map<String, Json>,
    alloc: Global,
    key: &str,
    items: Vec<Json>,
) -> Result<(), AllocError>
    ensures { OnOk result (members_view map.new.entries
        ≡ put_list key.now (items_view items.items) (members_view map.old.entries)) }
{
    if items.is_empty() {
        Ok(())
    } else {
        put(map, alloc, key, Json::Array(items))
    }
}
