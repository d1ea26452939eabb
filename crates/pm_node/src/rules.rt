//! What a schema says of a node.
#![tactic(auto, unfolding(pm_schema::specs::Documents::documents_of))]

ghost use Rattle.std.specs.Prelude.{◌≡◌, ◌<◌, ◌&&◌, ◌==◌, ◌↔◌, [], not, length, None, IfOk, IsTrue};
ghost use Rattle.pm_value.specs.Views.{plains};
ghost use Rattle.pm_attrs.specs.Attrs.{same_attrs};
ghost use Rattle.pm_marks.specs.Sets.{same_marks, all_added};
ghost use Rattle.pm_tokens.specs.Kids.{kids};
ghost use Rattle.pm_tokens.specs.Marks.{have_attrs, is_set, are_allowed};
ghost use Rattle.pm_tokens.specs.Schemas.{node_attrs, mark_attrs};
ghost use Rattle.pm_schema.specs.Attrs.{IsType, attrs_of, AreOfKinds};
ghost use Rattle.pm_schema.specs.Types.{fit_attrs};
ghost use Rattle.pm_schema.specs.Documents.{documents_of};
ghost use Rattle.pm_node.specs.Kinds.{kind_in};

use crate::node::{Body, Fragment, Node};
use crate::values::values_are_within;
use pm_attrs::Attrs;
use pm_auto::TypeId;
use pm_marks::{MarkId, MarkRules, MarkSet};
use pm_schema::{AnyType, Schema};
use pm_value::Value;
use std::alloc::{AllocError, Global};

/// How deep the value of an attribute may nest.
const MAX_VALUE_DEPTH: usize = 4;

/// Whether the attributes are those that the node type declares.
pub fn node_attrs_fit(schema: &Schema, kind: TypeId, attrs: &Attrs) -> bool
    ensures fit { result ≡ node_attrs (documents_of schema.now.spec) kind attrs.now }
    ensures known { IsTrue result → kind < length schema.now.spec.nodes }
{
    kind < schema.node_count() && values_fit(schema, AnyType::Node(kind), attrs.values())
}

/// Whether the attributes are those that the mark type declares.
fn mark_attrs_fit(schema: &Schema, mark: MarkId, attrs: &Attrs) -> bool
    ensures { result ≡ mark_attrs (documents_of schema.now.spec) mark attrs.now }
{
    mark < schema.mark_count() && values_fit(schema, AnyType::Mark(mark), attrs.values())
}

/// Whether there is one value for each attribute of the type, none nests too deep, and each is of a kind that its attribute
/// names.
fn values_fit(schema: &Schema, kind: AnyType, values: &[Value]) -> bool
    requires { IsType schema.now.spec kind }
    ensures { result ≡ fit_attrs (attrs_of schema.now.spec kind) (plains values.now) }
{
    if values.len() != schema.attr_count(kind) {
        return false;
    }
    values_are_within(values, MAX_VALUE_DEPTH) && kinds_fit(schema, kind, values)
}

/// Whether each value is of a kind that its attribute names.
fn kinds_fit(schema: &Schema, kind: AnyType, values: &[Value]) -> bool
    requires known { IsType schema.now.spec kind }
    requires full { length values.now ≡ length (attrs_of schema.now.spec kind) }
    ensures { IsTrue result ↔ AreOfKinds (attrs_of schema.now.spec kind) (plains values.now) }
{
    for i in 0..values.len() {
        if !schema.attr_allows(kind, i, &values[i]) {
            return false;
        }
    }
    true
}

/// Whether each mark has the attributes of its type.
pub fn marks_have_attrs(schema: &Schema, marks: &MarkSet<Attrs>) -> bool
    ensures { result ≡ have_attrs (documents_of schema.now.spec) marks.now }
{
    for mark in marks.marks() {
        if !mark_attrs_fit(schema, mark.kind, &mark.attrs) {
            return false;
        }
    }
    true
}

/// Whether adding the marks in order to the empty set gives them back.
pub fn marks_are_set(
    alloc: Global,
    schema: &Schema,
    marks: &MarkSet<Attrs>,
) -> Result<bool, AllocError>
    ensures { IfOk result (λ b. b ≡ is_set (documents_of schema.now.spec) marks.now) }
{
    add_again(alloc, schema.rules(), marks)
}

fn add_again(alloc: Global, rules: &MarkRules, marks: &MarkSet<Attrs>) -> Result<bool, AllocError>
    ensures { IfOk result (λ b. b ≡ same_marks same_attrs (all_added same_attrs rules.now [] marks.now) marks.now) }
{
    let mut set = MarkSet::empty(alloc);
    for mark in marks.marks() {
        set = set.add(alloc, rules, mark)?;
    }
    Ok(set.same(marks))
}

/// Whether children of a node of the type may have each of the marks.
pub fn marks_are_allowed(schema: &Schema, parent: TypeId, marks: &MarkSet<Attrs>) -> bool
    requires { parent < length schema.now.spec.nodes }
    ensures { result ≡ are_allowed (documents_of schema.now.spec) parent marks.now }
{
    for mark in marks.marks() {
        if !schema.allows(parent, mark.kind) {
            return false;
        }
    }
    true
}

/// The type that the node counts as among its parent's children.
fn kind_among(schema: &Schema, node: &Node) -> TypeId
    ensures { result ≡ kind_in (documents_of schema.now.spec).text node.now }
{
    match &node.body {
        Body::Text(_) => schema.text_type(),
        Body::Leaf => node.kind,
        Body::Children(_) => node.kind,
    }
}

/// Whether nodes of the type may have this content.
pub fn accepts(schema: &Schema, kind: TypeId, content: &Fragment) -> bool
    requires { kind < length schema.now.spec.nodes }
    ensures { result ≡ (documents_of schema.now.spec).accepts kind (kids (documents_of schema.now.spec).text 0 None content.now) }
{
    let automaton = schema.auto(kind);
    let mut state = automaton.start();
    let children = content.children();
    for i in 0..children.len() {
        let child = children.get(i);
        match automaton.next(state, kind_among(schema, child)) {
            Some(next) => state = next,
            None => return false,
        }
    }
    automaton.valid_end(state)
}

/// Whether a leaf may be of the type.
pub fn leaf_fits(schema: &Schema, kind: TypeId) -> bool
    requires { kind < length schema.now.spec.nodes }
    ensures { result ≡ (not (kind == (documents_of schema.now.spec).text) && (documents_of schema.now.spec).is_leaf kind) }
{
    kind != schema.text_type() && schema.is_leaf(kind)
}

/// Whether a node that is no leaf may be of the type and have this content.
pub fn content_fits(schema: &Schema, kind: TypeId, content: &Fragment) -> bool
    requires { kind < length schema.now.spec.nodes }
    ensures { result ≡ (not (kind == (documents_of schema.now.spec).text) && not ((documents_of schema.now.spec).is_leaf kind)
        && (documents_of schema.now.spec).accepts kind (kids (documents_of schema.now.spec).text 0 None content.now)) }
{
    kind != schema.text_type() && !schema.is_leaf(kind) && accepts(schema, kind, content)
}
