//! How deep nodes nest.
ghost use Rattle.std.specs.Prelude.{◌≤◌, ◌↔◌, IsTrue};
ghost use Rattle.pm_tokens.specs.Scan.{deepest};
ghost use Rattle.pm_node.specs.Trees.{node_tokens};

use crate::node::{Body, Fragment, Node};

/// Whether no position of the content is in more than `levels` nodes. It recurses at most `levels` deep.
#[cycle(depth)]
pub fn nests_within(content: &Fragment, levels: usize) -> bool
    ensures { IsTrue result ↔ (deepest 0 content.now ≤ levels) }
{
    let children = content.children();
    for i in 0..children.len() {
        let child = children.get(i);
        if !node_nests_within(child, levels) {
            return false;
        }
    }
    true
}

#[cycle(depth)]
fn node_nests_within(node: &Node, levels: usize) -> bool
    ensures { IsTrue result ↔ (deepest 0 (node_tokens node.now) ≤ levels) }
{
    match &node.body {
        Body::Children(content) => {
            let _ = content.size();
            levels > 0 && nests_within(content, levels - 1)
        }
        _ => true,
    }
}
