//! Whether a node begins at a position.
ghost use Rattle.std.specs.Prelude.{◌≡◌, ◌<◌, length, drop};
ghost use Rattle.pm_meaning.specs.Marked.{starts_node};
ghost use Rattle.pm_node.specs.Trees.{node_tokens};

use pm_node::{Body, Fragment, Node};

/// Whether a node with an open, or a leaf, begins at the position: no text, and no close. It takes no memory.
#[cycle(begins)]
pub fn begins_node(content: &Fragment, pos: usize) -> bool
    ensures { result ≡ starts_node (drop pos content.now) }
{
    let children = content.children();
    if children.size() <= pos {
        return false;
    }
    let found = children.find(pos);
    begins_in(children.get(found.index), found.rest)
}

#[cycle(begins)]
fn begins_in(node: &Node, pos: usize) -> bool
    requires { pos < length (node_tokens node.now) }
    ensures { result ≡ starts_node (drop pos (node_tokens node.now)) }
{
    match &node.body {
        Body::Text(_) => false,
        Body::Leaf => true,
        Body::Children(inner) => {
            let size = inner.size();
            if pos == 0 {
                return true;
            }
            if size < pos {
                return false;
            }
            begins_node(inner, pos - 1)
        }
    }
}
