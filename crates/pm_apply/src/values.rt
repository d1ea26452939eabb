//! Values of attributes: where a new one goes, the old one, and contents with another one.
ghost use Rattle.std.specs.Prelude.{◌≡◌, ◌<◌, true, length, drop, slice_index_or, IfOk};
ghost use Rattle.std.specs.Arc.{arc_value};
ghost use Rattle.pm_value.specs.Views.{plain};
ghost use Rattle.pm_tokens.specs.Schemas.{node_attrs};
ghost use Rattle.pm_meaning.specs.Attributes.{with_node_value};
ghost use Rattle.pm_meaning.specs.Inverses.{old_value};
ghost use Rattle.pm_schema.specs.Documents.{documents_of};
ghost use Rattle.pm_node.specs.Trees.{body_tokens, node_tokens};
ghost use Rattle.pm_apply.specs.Nodes.{has_place, head_first, valued};
ghost use Rattle.pm_apply.specs.Settled.{settled};

use pm_attrs::Attrs;
use pm_auto::TypeId;
use pm_marks::Same;
use pm_meaning::Reason;
use pm_node::{Body, Fragment, Node};
use pm_replace::value_is_shallow;
use pm_schema::{AnyType, Schema};
use pm_value::{Text, Value};
use std::alloc::{AllocError, Global};
use std::sync::Arc;

/// The place of the attribute of the type that gets the value, or the first reason why none does, in the order NoAttribute,
/// BadValue, Content. `at` is the place of the node in the document. It takes no memory.
pub fn settle(
    schema: &Schema,
    kind: TypeId,
    attr: &Text,
    value: &Value,
    at: usize,
) -> Result<usize, Reason>
    requires { kind < length schema.now.spec.nodes }
    ensures { result ≡ settled (documents_of schema.now.spec) kind attr.now (plain value.now) at }
{
    let kind = AnyType::Node(kind);
    let Some(place) = schema.attr_place(kind, attr.as_str()) else {
        return Err(Reason::NoAttribute);
    };
    if !schema.attr_allows(kind, place, value) {
        return Err(Reason::BadValue);
    }
    if !value_is_shallow(value) {
        return Err(Reason::Content { at });
    }
    Ok(place)
}

/// The value that the attribute of the type has among these, null where the type has no such attribute.
pub fn old_value(
    alloc: Global,
    schema: &Schema,
    kind: TypeId,
    attr: &Text,
    attrs: &Attrs,
) -> Result<Value, AllocError>
    requires known { kind < length schema.now.spec.nodes }
    requires fit { node_attrs (documents_of schema.now.spec) kind attrs.now ≡ true }
    ensures { IfOk result (λ v. plain v ≡ old_value (documents_of schema.now.spec) kind attr.now attrs.now) }
{
    match schema.attr_place(AnyType::Node(kind), attr.as_str()) {
        Some(place) => value_at(attrs.values(), place).copy(alloc),
        None => Ok(Value::Null),
    }
}

/// The value at a place.
fn value_at(values: &[Value], place: usize) -> &Value
    requires { place < length values.now }
    ensures { result.now ≡ slice_index_or values.now place result.now }
{
    &values[place]
}

/// The content in which the node that begins at `pos` has the value as its attribute `place`, counted from 0 in byte order of
/// the names. It shares each node that the position is not in.
#[cycle(value)]
pub fn value_content(
    alloc: Global,
    content: &Fragment,
    pos: usize,
    place: usize,
    value: &Value,
) -> Result<Fragment, AllocError>
    requires { has_place place (head_first (drop pos content.now)) ≡ true }
    ensures { IfOk result (λ f. f ≡ valued place (plain value.now) pos content.now) }
{
    let _ = content.size();
    let children = content.children();
    let count = children.len();
    let found = children.find(pos);
    let child = children.get(found.index);
    let node = value_node(alloc, child, found.rest, place, value)?;
    let mut made = Fragment::new(alloc);
    made.append(alloc, &children, 0, found.index)?;
    made.push(alloc, node)?;
    made.append(alloc, &children, found.index + 1, count)?;
    Ok(made)
}

/// The same of a node.
#[cycle(value)]
fn value_node(
    alloc: Global,
    node: &Node,
    pos: usize,
    place: usize,
    value: &Value,
) -> Result<Arc<Node, Global>, AllocError>
    requires inside { pos < length (node_tokens node.now) }
    requires place { has_place place (head_first (drop pos (node_tokens node.now))) ≡ true }
    ensures { IfOk result (λ n. node_tokens (arc_value n) ≡ valued place (plain value.now) pos (node_tokens node.now)) }
{
    if pos == 0 {
        return value_head(alloc, node, place, value);
    }
    match &node.body {
        Body::Text(_) => unreachable!(),
        Body::Leaf => unreachable!(),
        Body::Children(inner) => {
            let _ = inner.size();
            let inner = value_content(alloc, inner, pos - 1, place, value)?;
            let attrs = node.attrs.copy(alloc)?;
            with_head(alloc, node, attrs, Body::Children(inner))
        }
    }
}

/// The node itself with the value. It shares its content.
fn value_head(
    alloc: Global,
    node: &Node,
    place: usize,
    value: &Value,
) -> Result<Arc<Node, Global>, AllocError>
    requires { has_place place (head_first (node_tokens node.now)) ≡ true }
    ensures { IfOk result (λ n. node_tokens (arc_value n) ≡ with_node_value place (plain value.now) (node_tokens node.now)) }
{
    let attrs = node.attrs.with_value(alloc, place, value)?;
    match &node.body {
        Body::Text(_) => unreachable!(),
        Body::Leaf => with_head(alloc, node, attrs, Body::Leaf),
        Body::Children(inner) => {
            let content = inner.copy(alloc)?;
            with_head(alloc, node, attrs, Body::Children(content))
        }
    }
}

/// A node with the type and the marks of another one.
fn with_head(
    alloc: Global,
    head: &Node,
    attrs: Attrs,
    body: Body,
) -> Result<Arc<Node, Global>, AllocError>
    ensures { IfOk result (λ n. node_tokens (arc_value n) ≡ body_tokens head.now.kind attrs head.now.marks body) }
{
    let node = Node {
        kind: head.kind,
        attrs,
        marks: head.marks.copy(alloc)?,
        body,
    };
    Ok(Arc::new(alloc, node)?)
}
