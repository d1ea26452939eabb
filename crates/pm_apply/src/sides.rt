//! What stands between two positions of a content, and at one.
ghost use Rattle.std.specs.Prelude.{◌≡◌, ◌≤◌, ◌<◌, length, drop, IfOk};
ghost use Rattle.std.specs.Option.{option_copied, option_map};
ghost use Rattle.pm_tokens.specs.Scan.{closes_then_opens, is_whole, part};
ghost use Rattle.pm_tokens.specs.Slices.{depths_fit};
ghost use Rattle.pm_meaning.specs.Outcomes.{keeps_structure};
ghost use Rattle.pm_node.specs.Trees.{node_tokens};
ghost use Rattle.pm_apply.specs.Nodes.{node_head, head_first, marks_first};

use pm_attrs::Attrs;
use pm_build::depth_at;
use pm_marks::MarkSet;
use pm_node::{Body, Fragment, Node};
use pm_slice::{Slice, cut_content};
use std::alloc::{AllocError, Global};

/// Whether what stands from..to is closes and then opens: its cut has as many open sides as tokens.
pub fn is_structure(
    alloc: Global,
    content: &Fragment,
    from: usize,
    to: usize,
) -> Result<bool, AllocError>
    requires order { from ≤ to }
    requires within { to ≤ length content.now }
    ensures { IfOk result (λ b. b ≡ closes_then_opens (part from to content.now)) }
{
    let cut = cut_content(alloc, content, from, to)?;
    Ok(cut.open_start() + cut.open_end() == to - from)
}

/// Whether a step that overwrites from..to may do so: it has `structure` only where what stands there is closes and then opens.
pub fn keeps_structure(
    alloc: Global,
    content: &Fragment,
    from: usize,
    to: usize,
    structure: bool,
) -> Result<bool, AllocError>
    requires order { from ≤ to }
    requires within { to ≤ length content.now }
    ensures { IfOk result (λ b. b ≡ keeps_structure structure (part from to content.now)) }
{
    if !structure {
        return Ok(true);
    }
    is_structure(alloc, content, from, to)
}

/// Whether the open sides of the slice fit the depths of the two positions.
pub fn sides_fit(content: &Fragment, from: usize, to: usize, slice: &Slice) -> bool
    requires start { from ≤ length content.now }
    requires end { to ≤ length content.now }
    ensures { result ≡ depths_fit content.now from to slice.now }
{
    let left = depth_at(content, from);
    let right = depth_at(content, to);
    let start = slice.open_start();
    let end = slice.open_end();
    let _ = content.size();
    start <= left && left + end == right + start
}

/// Whether what stands from..to is a whole number of nodes: its cut has no open side.
pub fn is_whole(
    alloc: Global,
    content: &Fragment,
    from: usize,
    to: usize,
) -> Result<bool, AllocError>
    requires order { from ≤ to }
    requires within { to ≤ length content.now }
    ensures { IfOk result (λ b. b ≡ is_whole (part from to content.now)) }
{
    let cut = cut_content(alloc, content, from, to)?;
    Ok(cut.open_start() == 0 && cut.open_end() == 0)
}

/// The node that begins at the position, if one does. It takes no memory.
#[cycle(node_at)]
pub fn node_at(content: &Fragment, pos: usize) -> Option<&Node>
    ensures { option_map node_head (option_copied result) ≡ head_first (drop pos content.now) }
{
    let children = content.children();
    if children.size() <= pos {
        return None;
    }
    let found = children.find(pos);
    node_in(children.get(found.index), found.rest)
}

#[cycle(node_at)]
fn node_in(node: &Node, pos: usize) -> Option<&Node>
    requires { pos < length (node_tokens node.now) }
    ensures { option_map node_head (option_copied result) ≡ head_first (drop pos (node_tokens node.now)) }
{
    match &node.body {
        Body::Text(_) => None,
        Body::Leaf => Some(node),
        Body::Children(inner) => {
            let size = inner.size();
            if pos == 0 {
                return Some(node);
            }
            if size < pos {
                return None;
            }
            node_at(inner, pos - 1)
        }
    }
}

/// The marks of the node that begins at the position, if one does. It takes no memory.
pub fn node_marks_at(content: &Fragment, pos: usize) -> Option<&MarkSet<Attrs>>
    ensures { option_copied result ≡ marks_first (drop pos content.now) }
{
    match node_at(content, pos) {
        Some(node) => Some(&node.marks),
        None => None,
    }
}
