//! Whether a schema knows what a step names, so that the step can be written and read back.
#![tactic(auto, unfolding(pm_schema::specs::Documents::documents_of))]

ghost use Rattle.std.specs.Prelude.{◌≡◌, ◌&&◌, ◌==◌, ◌↔◌, [], true, not, length, nat_le, take, IfOk, IsTrue, ◌<◌};
ghost use Rattle.std.specs.List.{list_all};
ghost use Rattle.pm_value.specs.Plain.{depth};
ghost use Rattle.pm_value.specs.Views.{plain, plains};
ghost use Rattle.pm_attrs.specs.Attrs.{same_attrs};
ghost use Rattle.pm_marks.specs.Sets.{same_marks, all_added};
ghost use Rattle.pm_tokens.specs.Tokens.{Open};
ghost use Rattle.pm_tokens.specs.Marks.{have_attrs, is_set};
ghost use Rattle.pm_tokens.specs.Schemas.{node_attrs};
ghost use Rattle.pm_meaning.specs.Known.{knows_mark, knows_open, knows_slice};
ghost use Rattle.pm_schema.specs.Attrs.{IsType, attrs_of, AreOfKinds};
ghost use Rattle.pm_schema.specs.Types.{fit_attrs};
ghost use Rattle.pm_schema.specs.Documents.{documents_of};
ghost use Rattle.pm_slice.specs.Sides.{opens_first};

use crate::values::{value_is_within, values_are_within};
use pm_attrs::Attrs;
use pm_auto::TypeId;
use pm_marks::{Mark, MarkRules, MarkSet};
use pm_node::{Body, Fragment, Node};
use pm_schema::{AnyType, Schema};
use pm_slice::Slice;
use pm_value::Value;
use std::alloc::{AllocError, Global};

/// How deep the value of an attribute may nest.
const MAX_VALUE_DEPTH: usize = 4;

/// Whether the mark is of a type of the schema, with the attributes that it declares. It takes no memory.
pub fn knows_mark(schema: &Schema, mark: &Mark<Attrs>) -> bool
    ensures { result ≡ knows_mark (documents_of schema.now.spec) mark.now }
{
    mark.kind < schema.mark_count()
        && values_fit(schema, AnyType::Mark(mark.kind), mark.attrs.values())
}

/// Whether each node that is open at the slice's start is of a type of the schema that is no leaf and not text, with the
/// attributes that it declares and marks of the schema that are a set. No result shows these nodes: a joined node is the
/// document's own.
pub fn knows_slice(alloc: Global, schema: &Schema, slice: &Slice) -> Result<bool, AllocError>
    ensures { IfOk result (λ b. b ≡ knows_slice (documents_of schema.now.spec) slice.now) }
{
    let _ = slice.size();
    knows_opens(alloc, schema, slice.content(), slice.open_start())
}

/// The same of the `depth` nodes that stand first within one another.
fn knows_opens(
    alloc: Global,
    schema: &Schema,
    content: &Fragment,
    depth: usize,
) -> Result<bool, AllocError>
    requires { opens_first depth content.now ≡ true }
    ensures { IfOk result (λ b. b ≡ list_all (knows_open (documents_of schema.now.spec)) (take depth content.now)) }
{
    if depth == 0 {
        return Ok(true);
    }
    let children = content.children();
    let node = children.get(0);
    let Body::Children(inner) = &node.body else {
        return Ok(false);
    };
    let known = knows_open(alloc, schema, node)?;
    if !known {
        return Ok(false);
    }
    knows_opens(alloc, schema, inner, depth - 1)
}

/// The same of one node.
fn knows_open(alloc: Global, schema: &Schema, node: &Node) -> Result<bool, AllocError>
    ensures { IfOk result (λ b. b ≡ knows_open (documents_of schema.now.spec) (Open node.now.kind node.now.attrs node.now.marks)) }
{
    if !opens_fit(schema, node.kind, &node.attrs) {
        return Ok(false);
    }
    if !marks_have_attrs(schema, &node.marks) {
        return Ok(false);
    }
    add_again(alloc, schema.rules(), &node.marks)
}

/// Whether a node that is no leaf may be of the type, with these attributes.
fn opens_fit(schema: &Schema, kind: TypeId, attrs: &Attrs) -> bool
    ensures { result ≡ (node_attrs (documents_of schema.now.spec) kind attrs.now
        && (not (kind == (documents_of schema.now.spec).text) && not ((documents_of schema.now.spec).is_leaf kind))) }
{
    if kind >= schema.node_count() {
        return false;
    }
    values_fit(schema, AnyType::Node(kind), attrs.values())
        && kind != schema.text_type()
        && !schema.is_leaf(kind)
}

/// Whether the value nests no deeper than that of an attribute may: at most four lists and objects within one another. It takes
/// no memory.
pub fn value_is_shallow(value: &Value) -> bool
    ensures { result ≡ nat_le (depth (plain value.now)) 4 }
{
    value_is_within(value, MAX_VALUE_DEPTH)
}

/// Whether there is one value for each attribute of the type, none nests too deep, and each is of a kind that its attribute
/// names.
fn values_fit(schema: &Schema, kind: AnyType, values: &[Value]) -> bool
    requires { IsType schema.now.spec kind }
    ensures { result ≡ fit_attrs (attrs_of schema.now.spec kind) (plains values.now) }
{
    if values.len() != schema.attr_count(kind) {
        return false;
    }
    values_are_within(values, MAX_VALUE_DEPTH) && kinds_fit(schema, kind, values)
}

/// Whether each value is of a kind that its attribute names.
fn kinds_fit(schema: &Schema, kind: AnyType, values: &[Value]) -> bool
    requires known { IsType schema.now.spec kind }
    requires full { length values.now ≡ length (attrs_of schema.now.spec kind) }
    ensures { IsTrue result ↔ AreOfKinds (attrs_of schema.now.spec kind) (plains values.now) }
{
    for i in 0..values.len() {
        if !schema.attr_allows(kind, i, &values[i]) {
            return false;
        }
    }
    true
}

/// Whether the schema knows each of the marks.
fn marks_have_attrs(schema: &Schema, marks: &MarkSet<Attrs>) -> bool
    ensures { result ≡ have_attrs (documents_of schema.now.spec) marks.now }
{
    for mark in marks.marks() {
        if !knows_mark(schema, mark) {
            return false;
        }
    }
    true
}

/// Whether adding the marks in order to the empty set gives them back.
fn add_again(alloc: Global, rules: &MarkRules, marks: &MarkSet<Attrs>) -> Result<bool, AllocError>
    ensures { IfOk result (λ b. b ≡ same_marks same_attrs (all_added same_attrs rules.now [] marks.now) marks.now) }
{
    let mut set = MarkSet::empty(alloc);
    for mark in marks.marks() {
        set = set.add(alloc, rules, mark)?;
    }
    Ok(set.same(marks))
}
