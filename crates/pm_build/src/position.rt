//! What stands at a position of a content.
ghost use Rattle.std.specs.Prelude.{◌≡◌, ◌≤◌, ◌<◌, length};
ghost use Rattle.pm_tokens.specs.Scan.{depth_at, parts_pair};
ghost use Rattle.pm_node.specs.Trees.{node_tokens};
ghost use Rattle.pm_build.specs.Positions.{unit_at, high_unit, low_unit};

use pm_node::{Body, Fragment, Node};

/// How many nodes are open before the position. It takes no memory.
#[cycle(depth)]
pub fn depth_at(content: &Fragment, pos: usize) -> usize
    requires { pos ≤ length content.now }
    ensures depth { result ≡ depth_at content.now pos }
    ensures bound { result ≤ pos }
{
    let children = content.children();
    let found = children.find(pos);
    if found.index < children.len() {
        let child = children.get(found.index);
        depth_in(child, found.rest)
    } else {
        0
    }
}

#[cycle(depth)]
fn depth_in(node: &Node, pos: usize) -> usize
    requires { pos < length (node_tokens node.now) }
    ensures depth { result ≡ depth_at (node_tokens node.now) pos }
    ensures bound { result ≤ pos }
{
    match &node.body {
        Body::Children(inner) => {
            let _ = inner.size();
            if pos == 0 {
                0
            } else {
                1 + depth_at(inner, pos - 1)
            }
        }
        _ => 0,
    }
}

/// The unit after the position, if the token there is one. It takes no memory.
#[cycle(unit)]
pub fn unit_at(content: &Fragment, pos: usize) -> Option<u16>
    ensures { result ≡ unit_at content.now pos }
{
    if content.size() <= pos {
        return None;
    }
    let children = content.children();
    let found = children.find(pos);
    let child = children.get(found.index);
    unit_in(child, found.rest)
}

#[cycle(unit)]
fn unit_in(node: &Node, pos: usize) -> Option<u16>
    requires { pos < length (node_tokens node.now) }
    ensures { result ≡ unit_at (node_tokens node.now) pos }
{
    match &node.body {
        Body::Text(units) => units.unit(pos),
        Body::Leaf => None,
        Body::Children(inner) => {
            let size = inner.size();
            if pos == 0 {
                return None;
            }
            if size < pos {
                return None;
            }
            unit_at(inner, pos - 1)
        }
    }
}

/// Whether the position parts a pair: the token before it is a high surrogate, and the one after it a low one. It takes no
/// memory.
pub fn parts_pair(content: &Fragment, pos: usize) -> bool
    ensures { result ≡ parts_pair content.now pos }
{
    if pos == 0 {
        return false;
    }
    let before = unit_at(content, pos - 1);
    let behind = unit_at(content, pos);
    is_high(before) && is_low(behind)
}

fn is_high(unit: Option<u16>) -> bool
    ensures { result ≡ high_unit unit }
{
    match unit {
        Some(unit) => 0xD800 <= unit && unit < 0xDC00,
        None => false,
    }
}

fn is_low(unit: Option<u16>) -> bool
    ensures { result ≡ low_unit unit }
{
    match unit {
        Some(unit) => 0xDC00 <= unit && unit < 0xE000,
        None => false,
    }
}
