//! How many nodes are around the positions of a part of a content.
ghost use Rattle.std.specs.Prelude.{◌≤◌, length};
ghost use Rattle.pm_node.specs.Trees.{node_tokens};
ghost use Rattle.pm_view.specs.Deep.{NoDeeper, NodeNoDeeper};

use pm_node::{Body, Fragment, Node};

/// A number that is no less than that of the nodes around any of the positions from..to. It looks at no child before `from`
/// and at none from `to` on, and takes no memory.
#[cycle(deep)]
pub(crate) fn depth_within(content: &Fragment, from: usize, to: usize) -> usize
    ensures deep { NoDeeper content.now from to result }
    ensures bound { result ≤ length content.now }
{
    let children = content.children();
    let start = children.size().min(from);
    let found = children.find(start);
    let mut at = start - found.rest;
    let mut most = 0;
    for i in found.index..children.len() {
        if to <= at {
            return most;
        }
        let child: &Node = children.get(i);
        let size = child.size();
        let here = depth_in(child, from.saturating_sub(at), to - at);
        most = most.max(here);
        at += size;
    }
    most
}

/// The same of the positions of a node, in the list that holds it.
#[cycle(deep)]
fn depth_in(node: &Node, from: usize, to: usize) -> usize
    ensures deep { NodeNoDeeper node.now from to result }
    ensures bound { result ≤ length (node_tokens node.now) }
{
    match &node.body {
        Body::Children(inner) => {
            let _ = inner.size();
            1 + depth_within(inner, from.saturating_sub(1), to.saturating_sub(1))
        }
        _ => 0,
    }
}
