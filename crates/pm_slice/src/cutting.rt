//! Cutting a slice out of a document.
ghost use Rattle.std.specs.Prelude.{◌≡◌, ◌≤◌, ◌<◌, length, IfOk, IfSome, IsNone};
ghost use Rattle.pm_tokens.specs.Slices.{cut};
ghost use Rattle.pm_node.specs.Trees.{node_tokens};
ghost use Rattle.pm_slice.specs.Cuts.{Cuts, Inside, HoldsNone, Flat};

use crate::clipping::clip;
use crate::fault::CutError;
use crate::slice::Slice;
use pm_build::depth_at;
use pm_node::{Body, Document, Fragment, Node};
use std::alloc::{AllocError, Global};

/// The part from..to of a document as a slice. Its tokens are the document's from..to. Nodes that are around one of the two
/// positions and not around both are open in it, with their attributes and marks. Range comes exactly where not
/// from <= to <= size.
/// ProseMirror: `Node.slice`.
pub fn cut(alloc: Global, doc: &Document, from: usize, to: usize) -> Result<Slice, CutError>
    ensures { Cuts doc.now.tokens from to result }
{
    let content = doc.content();
    if to < from {
        return Err(CutError::Range);
    }
    let size = content.size();
    if size < to {
        return Err(CutError::Range);
    }
    let made = cut_content(alloc, content, from, to)?;
    Ok(made)
}

/// The part from..to of a content: of the content of the innermost node that has both positions inside.
pub fn cut_content(
    alloc: Global,
    content: &Fragment,
    from: usize,
    to: usize,
) -> Result<Slice, AllocError>
    requires order { from ≤ to }
    requires within { to ≤ length content.now }
    ensures { IfOk result (λ s. s ≡ cut content.now from to) }
{
    let children = content.children();
    let found = children.find(from);
    if found.index == children.len() {
        return cut_across(alloc, content, from, to);
    }
    let start = found.rest;
    let end = to - (from - start);
    match inner_content(children.get(found.index), start, end) {
        Some(inner) => cut_content(alloc, inner, start - 1, end - 1),
        None => cut_across(alloc, content, from, to),
    }
}

/// The content of the node, if both positions are inside.
fn inner_content(node: &Node, start: usize, end: usize) -> Option<&Fragment>
    ensures inside { IfSome result (λ inner. Inside node.now start end inner.now) }
    ensures none { IsNone result → 0 < start → end < length (node_tokens node.now) → HoldsNone node.now }
{
    let size = node.size();
    if start == 0 {
        return None;
    }
    if size <= end {
        return None;
    }
    match &node.body {
        Body::Children(inner) => {
            let _ = inner.size();
            Some(inner)
        }
        _ => None,
    }
}

/// The part from..to of a content, where some position between has no node around it.
fn cut_across(
    alloc: Global,
    content: &Fragment,
    from: usize,
    to: usize,
) -> Result<Slice, AllocError>
    requires order { from ≤ to }
    requires within { to ≤ length content.now }
    requires flat { Flat content.now from to }
    ensures { IfOk result (λ s. s ≡ cut content.now from to) }
{
    let _ = content.size();
    let open_start = depth_at(content, from);
    let open_end = depth_at(content, to);
    let made = clip(alloc, content, from, to)?;
    Ok(Slice {
        content: made,
        open_start,
        open_end,
    })
}
