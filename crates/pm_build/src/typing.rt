//! Letters put into a text. The nodes around it are made anew, each from its own parts, and all others are shared.
ghost use Rattle.std.specs.Prelude.{◌≡◌, ◌+◌, ◌-◌, ◌<◌, ◌≤◌, ◌^◌, ◌++◌, length, IfOk, IfSome};
ghost use Rattle.pm_tokens.specs.Scan.{part};
ghost use Rattle.pm_tokens.specs.Kids.{text_tokens};
ghost use Rattle.pm_node.specs.Trees.{node_tokens, body_tokens, list_tokens, IsNormal, EachWhole};
ghost use Rattle.pm_build.specs.Placing.{Placed};

use pm_attrs::Attrs;
use pm_marks::{MarkSet, Same};
use pm_node::{Body, Children, Fragment, Node, Units};
use std::alloc::{AllocError, Global};
use std::sync::Arc;

/// The content with new nodes in the place of its tokens from..to, where these are letters of one text, and the new nodes
/// are none or one text with its marks; `None` elsewhere.
#[cycle(typed)]
pub fn typed(
    alloc: Global,
    content: &Fragment,
    from: usize,
    to: usize,
    new: &Fragment,
) -> Result<Option<Fragment>, AllocError>
    requires order { from ≤ to }
    requires within { to ≤ length content.now }
    requires room { from + length new.now + (length content.now - to) < 2 ^ 32 }
    ensures { IfOk result (λ o. IfSome o (λ f. Placed content.now from to new.now f)) }
{
    let children = content.children();
    // A letter at the end of a text is in it, so the token before is looked for.
    let found = children.find(from.saturating_sub(1));
    if found.index < children.len() {
        let child = children.get(found.index);
        let rest = found.rest + from.min(1);
        match typed_in(alloc, child, rest, rest + (to - from), new)? {
            Some(node) => Ok(Some(with_child(alloc, &children, found.index, node)?)),
            None => Ok(None),
        }
    } else {
        Ok(None)
    }
}

/// The same in one node, whose tokens from..to are of one text.
#[cycle(typed)]
fn typed_in(
    alloc: Global,
    node: &Node,
    from: usize,
    to: usize,
    new: &Fragment,
) -> Result<Option<Node>, AllocError>
    requires order { from ≤ to }
    requires room { from + length new.now + (length (node_tokens node.now) - to) < 2 ^ 32 }
    ensures { IfOk result (λ o. IfSome o (λ n. Placed (node_tokens node.now) from to new.now (node_tokens n))) }
{
    match &node.body {
        Body::Text(text) => typed_text(alloc, node, text, from, to, new),
        Body::Leaf => Ok(None),
        Body::Children(inner) => {
            if from == 0 || inner.size() + 1 < to {
                return Ok(None);
            }
            match typed(alloc, inner, from - 1, to - 1, new)? {
                Some(content) => Ok(Some(with_body(alloc, node, Body::Children(content))?)),
                None => Ok(None),
            }
        }
    }
}

/// The node with another body.
fn with_body(alloc: Global, head: &Node, body: Body) -> Result<Node, AllocError>
    ensures { IfOk result (λ n. node_tokens n ≡ body_tokens head.now.kind head.now.attrs head.now.marks body) }
{
    Ok(Node {
        kind: head.kind,
        attrs: head.attrs.copy(alloc)?,
        marks: head.marks.copy(alloc)?,
        body,
    })
}

/// A text with new letters in the place of its units from..to.
fn typed_text(
    alloc: Global,
    head: &Node,
    text: &Units,
    from: usize,
    to: usize,
    new: &Fragment,
) -> Result<Option<Node>, AllocError>
    requires order { from ≤ to }
    ensures { IfOk result (λ o. IfSome o (λ n. Placed (text_tokens head.now.marks text.now) from to new.now (node_tokens n))) }
{
    if text.len() < to {
        return Ok(None);
    }
    let front = text.cut(alloc, 0, from)?;
    let Some(begun) = with_letters(alloc, front, &head.marks, new)? else {
        return Ok(None);
    };
    let rest = text.cut(alloc, to, text.len())?;
    let units = begun.join(alloc, &rest)?;
    Ok(Some(with_body(alloc, head, Body::Text(units))?))
}

/// The units, and then those of the new nodes, where these are none or one text with the marks.
fn with_letters(
    alloc: Global,
    units: Units,
    marks: &MarkSet<Attrs>,
    new: &Fragment,
) -> Result<Option<Units>, AllocError>
    ensures { IfOk result (λ o. IfSome o (λ u. text_tokens marks.now u ≡ text_tokens marks.now units ++ new.now)) }
{
    if new.size() == 0 {
        return Ok(Some(units));
    }
    match letters(new, marks) {
        Some(more) => Ok(Some(units.join(alloc, more)?)),
        None => Ok(None),
    }
}

/// The units of the one text with the marks that the nodes are.
fn letters<'a>(new: &'a Fragment, marks: &MarkSet<Attrs>) -> Option<&'a Units>
    ensures { IfSome result (λ u. new.now ≡ text_tokens marks.now u.now) }
{
    let children = new.children();
    if children.len() != 1 {
        return None;
    }
    let child: &'a Node = children.get(0);
    match &child.body {
        Body::Text(units) => if child.marks.same(marks) {
            Some(units)
        } else {
            None
        },
        Body::Leaf | Body::Children(_) => None,
    }
}

/// The nodes with another one in the place of node `i`.
fn with_child(
    alloc: Global,
    nodes: &Children<'_>,
    i: usize,
    node: Node,
) -> Result<Fragment, AllocError>
    requires within { i < length nodes.now }
    requires normal { IsNormal nodes.now }
    requires each { EachWhole nodes.now }
    requires room { length (list_tokens (part 0 i nodes.now)) + length (node_tokens node) + length (list_tokens (part (i + 1) (length nodes.now) nodes.now)) < 2 ^ 32 }
    ensures { IfOk result (λ f. f ≡ list_tokens (part 0 i nodes.now) ++ (node_tokens node ++ list_tokens (part (i + 1) (length nodes.now) nodes.now))) }
{
    let count = nodes.len();
    let mut made = Fragment::new(alloc);
    made.append(alloc, nodes, 0, i)?;
    made.push(alloc, Arc::new(alloc, node)?)?;
    made.append(alloc, nodes, i + 1, count)?;
    Ok(made)
}
