//! JSON values as nodes.
ghost use Rattle.std.specs.Prelude.{◌≡◌, ◌<◌, codes, length, map, min};
ghost use Rattle.serde_json.specs.View.{items_of};
ghost use Rattle.pm_node.specs.Trees.{nodes_tokens};
ghost use Rattle.pm_docjson.specs.Answers.{Gives};
ghost use Rattle.pm_docjson.specs.declared.leaves.LeafContent.TheVariants.{Kept};
ghost use Rattle.pm_docjson.specs.Fields.{field};
ghost use Rattle.pm_docjson.specs.Reading.{text_from, branch_from, body_of, bounded, no_nodes, none_at, content_for, node_of, node_list, nodes_of, content_at};

use crate::fault::DocReadError;
use crate::fields::{field, text_of};
use crate::leaves::LeafContent;
use crate::reading_attrs::read_attrs;
use crate::reading_marks::marks_of;
use crate::types::{is_leaf, text_type};
use pm_auto::TypeId;
use pm_json::JsonRef;
use pm_node::{Body, Fragment, Node, Units};
use pm_schema::{AnyType, Schema};
use std::alloc::Global;

/// The greatest number of tokens in a list of nodes.
const MAX_TOKENS: usize = 4_294_967_295;

/// The node of a JSON value. Neighbouring texts with equal marks are one text. Content that a leaf type has all the same is kept,
/// so that a check of the document finds it. ProseMirror: `Node.fromJSON`.
///
/// # Errors
///
/// The first fault, depth first in the order `type`, `text` (of a text alone), `attrs`, `marks`, `content` (of a text not read).
/// - `Shape`: a field is missing that must be there, or is of another kind.
/// - `UnknownType`: no type has the name.
/// - `EmptyText`: a text is empty.
/// - `Attr`: as in `read_mark`.
/// - `NotASet`: the marks are no set.
/// - `Large`: a list has more than 4,294,967,295 tokens; it comes after the list's last node.
pub fn read_node<J: JsonRef>(alloc: Global, schema: &Schema, json: J) -> Result<Node, DocReadError>
    ensures { Gives (λ n. n) result (node_of schema.now.spec Kept (J.seen json)) }
{
    node_of(alloc, schema, LeafContent::Kept, json)
}

/// The node of a JSON value, as in `read_node`. Content of a leaf type is refused or kept.
pub fn read_node_with<J: JsonRef>(
    alloc: Global,
    schema: &Schema,
    leaves: LeafContent,
    json: J,
) -> Result<Node, DocReadError>
    ensures { Gives (λ n. n) result (node_of schema.now.spec leaves (J.seen json)) }
{
    node_of(alloc, schema, leaves, json)
}

/// The nodes of a list of JSON values, one after another, or the first fault in one of them, as in `read_node`. `Large` comes
/// after the last node, where they have more than 4,294,967,295 tokens. Content of a leaf type is refused or kept.
pub fn read_nodes<J: JsonRef>(
    alloc: Global,
    schema: &Schema,
    leaves: LeafContent,
    items: &[J],
) -> Result<Fragment, DocReadError>
    ensures { Gives (λ f. f) result (nodes_of schema.now.spec leaves (items_of (map J.seen items.now))) }
{
    let nodes = node_list(alloc, schema, leaves, items)?;
    fragment_of(alloc, nodes)
}

#[cycle(node)]
#[tactic(auto, using(crate::proofs::Content::fields), unfolding(crate::specs::Reading::node_from))]
fn node_of<J: JsonRef>(
    alloc: Global,
    schema: &Schema,
    leaves: LeafContent,
    json: J,
) -> Result<Node, DocReadError>
    ensures { Gives (λ n. n) result (node_of schema.now.spec leaves (J.seen json)) }
{
    let value = json.get("type");
    let name = text_of(&value)?;
    let kind = schema.node_named(name).ok_or(DocReadError::UnknownType)?;
    if kind == text_type(schema) {
        text_from(alloc, schema, json)
    } else {
        branch_from(alloc, schema, leaves, kind, json)
    }
}

/// A text, whose content is not read.
#[tactic(auto, unfolding(crate::specs::Reading::text_from))]
fn text_from<J: JsonRef>(alloc: Global, schema: &Schema, json: J) -> Result<Node, DocReadError>
    ensures { Gives (λ n. n) result (text_from schema.now.spec (J.seen json)) }
{
    let value = json.get("text");
    let text = text_of(&value)?;
    if text.is_empty() {
        return Err(DocReadError::EmptyText);
    }
    let kind = text_type(schema);
    let attrs = read_attrs(alloc, schema, AnyType::Node(kind), json)?;
    let marks = marks_of(alloc, schema, json)?;
    let body = Body::Text(Units::of_text(alloc, text)?);
    Ok(Node {
        kind,
        attrs,
        marks,
        body,
    })
}

/// A node of another type, whose content is read last.
#[cycle(node)]
#[tactic(auto, unfolding(crate::specs::Reading::branch_from))]
fn branch_from<J: JsonRef>(
    alloc: Global,
    schema: &Schema,
    leaves: LeafContent,
    kind: TypeId,
    json: J,
) -> Result<Node, DocReadError>
    requires { kind < length schema.now.spec.nodes }
    ensures { Gives (λ n. n) result (branch_from schema.now.spec kind (J.seen json)
        (content_for schema.now.spec leaves kind (field (codes "content") (J.seen json))
        (content_at schema.now.spec leaves (field (codes "content") (J.seen json))))) }
{
    let attrs = read_attrs(alloc, schema, AnyType::Node(kind), json)?;
    let marks = marks_of(alloc, schema, json)?;
    let content = content_for(alloc, schema, leaves, kind, json)?;
    let body = body_of(schema, kind, content);
    Ok(Node {
        kind,
        attrs,
        marks,
        body,
    })
}

/// The content of a node of the type, which has none where the type is a leaf's and its content is refused.
#[cycle(node)]
fn content_for<J: JsonRef>(
    alloc: Global,
    schema: &Schema,
    leaves: LeafContent,
    kind: TypeId,
    json: J,
) -> Result<Fragment, DocReadError>
    requires { kind < length schema.now.spec.nodes }
    ensures { Gives (λ f. f) result (content_for schema.now.spec leaves kind (field (codes "content") (J.seen json))
        (content_at schema.now.spec leaves (field (codes "content") (J.seen json)))) }
{
    if leaves.refuses() && is_leaf(schema, kind) {
        none_at(alloc, json)
    } else {
        content_of(alloc, schema, leaves, json)
    }
}

/// No nodes, where the field `content` gives none.
fn none_at<J: JsonRef>(alloc: Global, json: J) -> Result<Fragment, DocReadError>
    ensures { Gives (λ f. f) result (none_at (field (codes "content") (J.seen json))) }
{
    let Some(value) = field(json, "content") else {
        return Ok(Fragment::new(alloc));
    };
    match value.items(alloc)? {
        Some(items) => no_nodes(alloc, items.as_slice()),
        None => Err(DocReadError::Shape),
    }
}

/// No nodes, where the list has none.
#[tactic(auto, using(crate::proofs::Bodies::bodies))]
fn no_nodes<J: JsonRef>(alloc: Global, items: &[J]) -> Result<Fragment, DocReadError>
    ensures { Gives (λ f. f) result (no_nodes (items_of (map J.seen items.now))) }
{
    if items.is_empty() {
        Ok(Fragment::new(alloc))
    } else {
        Err(DocReadError::Shape)
    }
}

/// What a node of the type holds: nothing where the type is a leaf's and there is no content.
#[tactic(auto, using(crate::proofs::Bodies::bodies))]
fn body_of(schema: &Schema, kind: TypeId, content: Fragment) -> Body
    requires { kind < length schema.now.spec.nodes }
    ensures { result ≡ body_of schema.now.spec kind content }
{
    if content.size() > 0 {
        return Body::Children(content);
    }
    if is_leaf(schema, kind) {
        Body::Leaf
    } else {
        Body::Children(content)
    }
}

/// The nodes that the field `content` gives.
#[cycle(node)]
fn content_of<J: JsonRef>(
    alloc: Global,
    schema: &Schema,
    leaves: LeafContent,
    json: J,
) -> Result<Fragment, DocReadError>
    ensures { Gives (λ f. f) result (content_at schema.now.spec leaves (field (codes "content") (J.seen json))) }
{
    match field(json, "content") {
        None => Ok(Fragment::new(alloc)),
        Some(value) => match value.items(alloc)? {
            Some(items) => {
                let nodes = node_list(alloc, schema, leaves, items.as_slice())?;
                fragment_of(alloc, nodes)
            }
            None => Err(DocReadError::Shape),
        },
    }
}

#[cycle(node)]
#[tactic(auto, using(crate::proofs::TokenFronts::token_fronts), unfolding(crate::specs::Reading::node_list))]
fn node_list<J: JsonRef>(
    alloc: Global,
    schema: &Schema,
    leaves: LeafContent,
    items: &[J],
) -> Result<Vec<Node>, DocReadError>
    ensures { Gives (λ v. nodes_tokens v.items) result (node_list schema.now.spec leaves (items_of (map J.seen items.now))) }
{
    let mut nodes = Vec::with_capacity(alloc, items.len())?;
    for &item in items {
        nodes.push(node_of(alloc, schema, leaves, item)?)?;
    }
    Ok(nodes)
}

/// The nodes as a fragment. `Large` comes where they have more than 4,294,967,295 tokens.
#[tactic(auto, using(crate::proofs::Bodies::bodies))]
fn fragment_of(alloc: Global, nodes: Vec<Node>) -> Result<Fragment, DocReadError>
    ensures { Gives (λ f. f) result (bounded (nodes_tokens nodes.items)) }
{
    if token_count(&nodes) > MAX_TOKENS {
        return Err(DocReadError::Large);
    }
    Ok(Fragment::from_nodes(alloc, nodes)?)
}

/// The number of the nodes' tokens, or the greatest number where they have more.
fn token_count(nodes: &[Node]) -> usize
    ensures { result ≡ min (length (nodes_tokens nodes.now)) usize.MAX }
{
    let mut count: usize = 0;
    for node in nodes {
        count = count.saturating_add(node.size());
    }
    count
}
