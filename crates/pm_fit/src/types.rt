//! The types of nodes, and where they lead in an automaton.
#![tactic(auto, unfolding(pm_schema::specs::Documents::documents_of))]

ghost use Rattle.std.specs.Prelude.{◌≡◌, ◌<◌, ℕ, None, length, take, IfOk, IfSome};
ghost use Rattle.pm_tokens.specs.Tokens.{Marks};
ghost use Rattle.pm_tokens.specs.Kids.{text_tokens, kids};
ghost use Rattle.pm_schema.specs.Documents.{documents_of};
ghost use Rattle.pm_node.specs.Kinds.{kind_in};
ghost use Rattle.pm_node.specs.Documents.{doc_of};
ghost use Rattle.pm_fit.specs.Wrappings.{first_type, state_after};

use pm_auto::{Auto, State, TypeId};
use pm_list::Listed;
use pm_node::{Body, Fragment, Node, Units};
use pm_schema::Schema;
use std::alloc::{AllocError, Global};

/// The type that the node counts as among its parent's children. It takes no memory.
fn type_of(schema: &Schema, node: &Node) -> TypeId
    ensures { result ≡ kind_in (documents_of schema.now.spec).text node.now }
{
    match &node.body {
        Body::Text(_) => schema.text_type(),
        Body::Leaf => node.kind,
        Body::Children(_) => node.kind,
    }
}

/// The type of the first node, None where there is none. It takes no memory.
pub fn first_type(schema: &Schema, content: &Fragment) -> Option<TypeId>
    ensures { result ≡ first_type (documents_of schema.now.spec).text content.now }
{
    let children = content.children();
    if children.len() == 0 {
        return None;
    }
    Some(type_of(schema, children.get(0)))
}

/// The types of the children of a node that begin before a position, counted in tokens from the start of its content.
pub fn types_before(
    alloc: Global,
    schema: &Schema,
    node: &Node,
    pos: usize,
) -> Result<Listed<TypeId>, AllocError>
    ensures { IfOk result (λ l. l ≡ kids (documents_of schema.now.spec).text 0 None (take pos (doc_of node.now).tokens)) }
{
    match &node.body {
        Body::Children(content) => types_within(alloc, schema, content, pos),
        Body::Leaf => Ok(Listed::new(alloc)),
        Body::Text(units) => types_in_text(alloc, schema, units, pos),
    }
}

/// The types of the nodes that begin before a position of a content that is one text of these units, or nothing.
fn types_in_text(
    alloc: Global,
    schema: &Schema,
    units: &Units,
    pos: usize,
) -> Result<Listed<TypeId>, AllocError>
    ensures { (marks : Marks) → IfOk result (λ l. l ≡ kids (documents_of schema.now.spec).text 0 None (take pos (text_tokens marks units.now))) }
{
    let mut types = Listed::new(alloc);
    if units.len() == 0 {
        return Ok(types);
    }
    if pos == 0 {
        return Ok(types);
    }
    types.push(schema.text_type())?;
    Ok(types)
}

/// The types of the nodes that begin before a position of a content.
fn types_within(
    alloc: Global,
    schema: &Schema,
    content: &Fragment,
    pos: usize,
) -> Result<Listed<TypeId>, AllocError>
    ensures { IfOk result (λ l. l ≡ kids (documents_of schema.now.spec).text 0 None (take pos content.now)) }
{
    let mut types = Listed::new(alloc);
    let mut rest = pos;
    let children = content.children();
    for i in 0..children.len() {
        if rest == 0 {
            return Ok(types);
        }
        let node: &Node = children.get(i);
        types.push(type_of(schema, node))?;
        rest = rest.saturating_sub(node.size());
    }
    Ok(types)
}

/// The state after these types, None where one of them can't come next. It takes no memory.
pub fn state_after(automaton: &Auto, types: &[TypeId]) -> Option<State>
    ensures state { result ≡ state_after automaton.now.edges 0 types.now }
    ensures inside { IfSome result (λ s. s < length automaton.now.sets) }
{
    let mut state = automaton.start();
    for kind in types {
        match automaton.next(state, *kind) {
            Some(next) => state = next,
            None => return None,
        }
    }
    Some(state)
}
