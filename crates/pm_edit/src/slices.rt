//! The slices that edits put in.
ghost use Rattle.std.specs.Prelude.{◌≡◌, true, IfOk};
ghost use Rattle.pm_tokens.specs.Slices.{is_slice};
ghost use Rattle.pm_node.specs.Trees.{node_tokens};
ghost use Rattle.pm_slice.specs.Sides.{sides, or_none};
ghost use Rattle.pm_edit.specs.Nodes.{closed, text_slice};

use pm_attrs::Attrs;
use pm_marks::{MarkSet, Same};
use pm_node::{Body, Fragment, Node, Units};
use pm_slice::Slice;
use std::alloc::{AllocError, Global};
use std::sync::Arc;

/// The greatest number of tokens of a content. There is no memory for a larger one.
const MAX_TOKENS: usize = 0xFFFF_FFFF;

/// The content as a slice, with so many nodes open at its start and at its end; the empty one where no token is left.
pub fn open_slice(alloc: Global, content: Fragment, depth: usize) -> Slice
    requires { is_slice (sides content depth depth) ≡ true }
    ensures { result ≡ or_none (sides content depth depth) }
{
    match Slice::new(alloc, content, depth, depth) {
        Ok(slice) => slice,
        Err(_) => unreachable!(),
    }
}

/// The content as a slice, with no node open.
pub fn closed(alloc: Global, content: Fragment) -> Slice
    ensures { result ≡ closed content }
{
    let _ = content.size();
    open_slice(alloc, content, 0)
}

/// A text of these units with these marks, or the empty slice for no units.
pub fn text_slice(alloc: Global, marks: &MarkSet<Attrs>, units: &Units) -> Result<Slice, AllocError>
    ensures { IfOk result (λ s. s ≡ text_slice marks.now units.now) }
{
    if units.len() > MAX_TOKENS {
        return Err(AllocError);
    }
    let content = Fragment::from_text(alloc, marks, units)?;
    Ok(closed(alloc, content))
}

/// The node as a slice.
pub fn node_slice(alloc: Global, node: &Node) -> Result<Slice, AllocError>
    ensures { IfOk result (λ s. s ≡ closed (node_tokens node.now)) }
{
    if node.size() > MAX_TOKENS {
        return Err(AllocError);
    }
    let node = copy_of(alloc, node)?;
    let mut content = Fragment::new(alloc);
    content.push(alloc, Arc::new(alloc, node)?)?;
    Ok(closed(alloc, content))
}

/// A node equal to this one, which shares its children with it.
fn copy_of(alloc: Global, node: &Node) -> Result<Node, AllocError>
    ensures { IfOk result (λ n. node_tokens n ≡ node_tokens node.now) }
{
    let body = body_of(alloc, &node.body)?;
    Ok(Node {
        kind: node.kind,
        attrs: node.attrs.copy(alloc)?,
        marks: node.marks.copy(alloc)?,
        body,
    })
}

/// What a node holds, copied.
fn body_of(alloc: Global, body: &Body) -> Result<Body, AllocError>
    ensures { IfOk result (λ b. b ≡ body.now) }
{
    match body {
        Body::Text(units) => Ok(Body::Text(units.copy(alloc)?)),
        Body::Leaf => Ok(Body::Leaf),
        Body::Children(content) => Ok(Body::Children(content.copy(alloc)?)),
    }
}
