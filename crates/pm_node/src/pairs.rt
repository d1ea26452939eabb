//! Surrogate units that are in no pair.
ghost use Rattle.std.specs.Prelude.{◌≡◌, ◌+◌, ◌≤◌, ◌^◌, length, None, option_map};
ghost use Rattle.pm_tokens.specs.Faults.{first_broken, Pair};
ghost use Rattle.pm_node.specs.Trees.{node_tokens};

use crate::node::{Body, Fragment, Node};

/// The place of the first broken unit, where `at` is the place of the first token.
#[cycle(pairs)]
pub fn first_broken(content: &Fragment, at: usize) -> Option<usize>
    requires { at + length content.now ≤ 2 ^ 32 }
    ensures { option_map Pair result ≡ first_broken at None content.now }
{
    let mut at = at;
    let children = content.children();
    for i in 0..children.len() {
        let child = children.get(i);
        let size = child.size();
        if let Some(place) = broken_in(child, at) {
            return Some(place);
        }
        at += size;
    }
    None
}

#[cycle(pairs)]
fn broken_in(node: &Node, at: usize) -> Option<usize>
    requires { at + length (node_tokens node.now) ≤ 2 ^ 32 }
    ensures { option_map Pair result ≡ first_broken at None (node_tokens node.now) }
{
    match &node.body {
        Body::Text(units) => match units.first_lone() {
            Some(i) => Some(at + i),
            None => None,
        },
        Body::Leaf => None,
        Body::Children(content) => first_broken(content, at + 1),
    }
}
