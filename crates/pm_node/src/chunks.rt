//! The nodes of a fragment, in chunks that several fragments share.
ghost use Rattle.std.specs.Prelude.{◌≡◌, ◌+◌, ◌<◌, ◌≤◌, ◌^◌, if◌then◌else◌, ◌++◌, length, IfOk, OnErr};
ghost use Rattle.pm_tokens.specs.Scan.{part};
ghost use Rattle.pm_node.specs.Trees.{node_tokens, list_tokens, WholeBody, IsNormal, EachWhole};
ghost use Rattle.pm_node.specs.Chunks.{nodes_of, IsKept, Follows, Begun};

use crate::children::Children;
use crate::node::{Node, join_texts};
use pm_sized::Chunks;
use std::alloc::{AllocError, Global};
use std::sync::Arc;

/// Joins a text with the last node, where that is a text of equal marks: `true`. `false` says that the two don't meet, and
/// then nothing changes. Out of memory, the nodes stay as they were.
pub(crate) fn join_last(
    alloc: Global,
    nodes: &mut Chunks<Arc<Node, Global>>,
    node: &Node,
) -> Result<bool, AllocError>
    requires kept { IsKept nodes.old }
    requires whole { WholeBody node.now.body }
    requires some { 0 < length (node_tokens node.now) }
    requires room { length (list_tokens (nodes_of nodes.old)) + length (node_tokens node.now) < 2 ^ 32 }
    ensures kept { IsKept nodes.new }
    ensures tokens { IfOk result (λ joined. list_tokens (nodes_of nodes.new) ≡ (if joined then list_tokens (nodes_of nodes.old) ++ node_tokens node.now else list_tokens (nodes_of nodes.old))) }
    ensures ends { IfOk result (λ joined. Follows (nodes_of nodes.new) node.now joined) }
    ensures err { OnErr result (list_tokens (nodes_of nodes.new) ≡ list_tokens (nodes_of nodes.old)) }
{
    let len = nodes.len();
    if len == 0 {
        return Ok(false);
    }
    let joined = join_texts(alloc, nodes.item(len - 1), node)?;
    match joined {
        None => Ok(false),
        Some(joined) => {
            let size = joined.size();
            let joined = Arc::new(alloc, joined)?;
            nodes.set_last(alloc, joined, size)?;
            Ok(true)
        }
    }
}

/// Joins the first of the children from..to with the last node, where both are texts of equal marks. It answers the number
/// of the first child that is still to be put after. Out of memory, the nodes stay as they were.
pub(crate) fn join_first(
    alloc: Global,
    nodes: &mut Chunks<Arc<Node, Global>>,
    source: &Children<'_>,
    from: usize,
    to: usize,
) -> Result<usize, AllocError>
    requires kept { IsKept nodes.old }
    requires order { from ≤ to }
    requires within { to ≤ length source.now }
    requires normal { IsNormal source.now }
    requires each { EachWhole source.now }
    requires room { length (list_tokens (nodes_of nodes.old)) + length (list_tokens (part from to source.now)) < 2 ^ 32 }
    ensures kept { IsKept nodes.new }
    ensures ok { IfOk result (λ i. Begun (list_tokens (nodes_of nodes.old)) source.now from to i (nodes_of nodes.new)) }
    ensures err { OnErr result (list_tokens (nodes_of nodes.new) ≡ list_tokens (nodes_of nodes.old)) }
{
    if from == to {
        return Ok(from);
    }
    let child = source.get(from);
    let joined = join_last(alloc, nodes, child)?;
    if joined {
        return Ok(from + 1);
    }
    Ok(from)
}
