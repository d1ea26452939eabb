//! Types of nodes and of marks.
ghost use Rattle.std.specs.Prelude.{◌≡◌, ◌<◌, ◌↔◌, [], length, IsTrue, Some};
ghost use Rattle.pm_value.specs.Kept.{InOrder};
ghost use Rattle.pm_schema.specs.Attrs.{IsType, attrs_of};
ghost use Rattle.pm_schema.specs.Documents.{documents_of};
ghost use Rattle.pm_schema.specs.Names.{place_of};
ghost use Rattle.pm_schema.specs.Types.{mark_at, names_of_marks, names_of_nodes, node_at};
ghost use Rattle.pm_docjson.specs.Values.{keys};

use pm_auto::TypeId;
use pm_marks::MarkId;
use pm_schema::{AnyType, Schema};

/// The type of texts, which has no attributes.
#[tactic(auto, unfolding(pm_schema::specs::Documents::documents_of))]
pub fn text_type(schema: &Schema) -> TypeId
    ensures text { (documents_of schema.now.spec).text ≡ result }
    ensures inside { result < length schema.now.spec.nodes }
    ensures plain { (node_at schema.now.spec (documents_of schema.now.spec).text).attrs ≡ [] }
{
    schema.text_type()
}

/// Whether nodes of the type have no content.
#[tactic(auto, unfolding(pm_schema::specs::Documents::documents_of))]
pub fn is_leaf(schema: &Schema, kind: TypeId) -> bool
    requires { kind < length schema.now.spec.nodes }
    ensures { result ≡ (documents_of schema.now.spec).is_leaf kind }
{
    schema.is_leaf(kind)
}

/// The name of a type of nodes, by which it is found again; a type beyond the last has none.
pub fn node_name(schema: &Schema, kind: TypeId) -> &str
    ensures name { result.now ≡ (node_at schema.now.spec kind).name }
    ensures found { kind < length schema.now.spec.nodes → place_of result.now (names_of_nodes schema.now.spec) ≡ Some kind }
{
    if kind < schema.node_count() {
        schema.node_name(kind)
    } else {
        ""
    }
}

/// The name of a type of marks, by which it is found again; a type beyond the last has none.
pub fn mark_name(schema: &Schema, kind: MarkId) -> &str
    ensures name { result.now ≡ (mark_at schema.now.spec kind).name }
    ensures found { kind < length schema.now.spec.marks → place_of result.now (names_of_marks schema.now.spec) ≡ Some kind }
{
    if kind < schema.mark_count() {
        schema.mark_name(kind)
    } else {
        ""
    }
}

/// How many attributes a type declares; a type beyond the last has none.
pub fn attr_count(schema: &Schema, kind: AnyType) -> usize
    ensures count { result ≡ length (attrs_of schema.now.spec kind) }
    ensures sorted { InOrder (keys (attrs_of schema.now.spec kind)) }
    ensures known { 0 < result → IsType schema.now.spec kind }
{
    if is_known(schema, kind) {
        schema.attr_count(kind)
    } else {
        0
    }
}

/// Whether the schema has the type.
fn is_known(schema: &Schema, kind: AnyType) -> bool
    ensures { IsTrue result ↔ IsType schema.now.spec kind }
{
    match kind {
        AnyType::Node(kind) => kind < schema.node_count(),
        AnyType::Mark(kind) => kind < schema.mark_count(),
    }
}
