//! Nodes, and lists of nodes.
ghost use Rattle.std.specs.Prelude.{◌≡◌, ◌+◌, ◌<◌, ◌^◌, [], ◌++◌, length, IfOk, OnOk, OnErr};
ghost use Rattle.std.specs.Arc.{arc_value};
ghost use Rattle.pm_tokens.specs.Scan.{Balanced};
ghost use Rattle.pm_node.specs.Trees.{node_tokens, list_tokens, Joined, IsNormal, WholeBody, EachWhole};

use crate::children::Children;
use crate::chunks::join_last;
use pm_attrs::Attrs;
use pm_auto::TypeId;
use pm_marks::{MarkSet, Same};
use pm_sized::Chunks;
use pm_units::Units;
use std::alloc::{AllocError, Global};
use std::marker::Model;
use std::sync::Arc;

/// A node: its type, attributes and marks, and what it holds.
/// ProseMirror: `Node`.
#[cycle(tree)]
#[derive(Drop)]
pub struct Node {
    pub kind: TypeId,
    pub attrs: Attrs,
    pub marks: MarkSet<Attrs>,
    pub body: Body,
}

/// What a node holds. A node whose body is a text counts as a text, whatever its type says.
#[cycle(tree)]
#[derive(Drop)]
pub enum Body {
    Text(Units),
    Leaf,
    Children(Fragment),
}

/// Nodes in normal form: no text is empty, and neighbouring texts have different marks. A contract sees their tokens, at
/// most 2^32 - 1 of them. Nodes are shared, and so are chunks of neighbours, so that a copy copies none and a change few.
/// ProseMirror: `Fragment`.
#[cycle(tree)]
#[derive(Drop)]
pub struct Fragment {
    pub(crate) nodes: Chunks<Arc<Node, Global>>,
}

impl Model for Fragment {
    ghost use Rattle.std.specs.Prelude.{List, length};
    ghost use Rattle.pm_tokens.specs.Tokens.{Token};
    ghost use Rattle.pm_node.specs.Codes.{tokens_code};

    ghost Value = { List Token };

    ghost coded = { tokens_code };

    ghost use Rattle.pm_node.specs.Trees.{list_tokens};
    ghost use Rattle.pm_node.specs.Chunks.{nodes_of, IsKept};

    ghost view = { λ f. list_tokens (nodes_of f.nodes) };

    ghost invariant = { λ f. IsKept f.nodes };

    ghost size = { length };

    ghost use Rattle.std.proofs.Common.{arith};
    ghost use Rattle.pm_node.specs.Falls.{chunks-fall};

    ghost size_decreases = { λ f h. Prim.omega (arith, chunks-fall f.nodes h.laid) };
}

impl Node {
    /// The number of the node's tokens: a text has one for each unit, a leaf one, and any other node two more than its
    /// content. It takes no memory.
    pub fn size(&self) -> usize
        ensures size { result ≡ length (node_tokens self.now) }
        ensures whole { Balanced (node_tokens self.now) }
        ensures body { WholeBody self.now.body }
    {
        match &self.body {
            Body::Text(units) => units.len(),
            Body::Leaf => 1,
            Body::Children(content) => content.size() + 2,
        }
    }
}

impl Fragment {
    /// No nodes. It takes no memory.
    pub fn new(alloc: Global) -> Fragment
        ensures { result ≡ [] }
    {
        Fragment {
            nodes: Chunks::new(alloc),
        }
    }

    /// The number of tokens. It takes no memory.
    pub fn size(&self) -> usize
        ensures size { result ≡ length self.now }
        ensures bound { result < 2 ^ 32 }
        ensures whole { Balanced self.now }
    {
        self.nodes.total()
    }

    /// The nodes in order. It takes no memory.
    pub fn children(&self) -> Children<'_>
        ensures tokens { list_tokens result ≡ self.now }
        ensures normal { IsNormal result }
        ensures each { EachWhole result }
        ensures bound { length (list_tokens result) < 2 ^ 32 }
    {
        Children::new(&self.nodes)
    }

    /// Appends a node. A text is joined with a text of equal marks before it, and an empty text is let
    /// go. Out of memory, the fragment stays as it was.
    pub fn push(&mut self, alloc: Global, node: Arc<Node, Global>) -> Result<(), AllocError>
        requires { length self.old + length (node_tokens (arc_value node)) < 2 ^ 32 }
        ensures ok { OnOk result (self.new ≡ self.old ++ node_tokens (arc_value node)) }
        ensures err { OnErr result (self.new ≡ self.old) }
    {
        let size = node.size();
        if size == 0 {
            return Ok(());
        }
        let joined = join_last(alloc, &mut self.nodes, &node)?;
        if joined {
            return Ok(());
        }
        self.nodes.push(alloc, node, size)?;
        Ok(())
    }
}

/// The text of two texts with equal marks, or `None` for other nodes.
pub(crate) fn join_texts(
    alloc: Global,
    left: &Node,
    right: &Node,
) -> Result<Option<Node>, AllocError>
    ensures { IfOk result (λ o. Joined left.now right.now o) }
{
    match (&left.body, &right.body) {
        (Body::Text(a), Body::Text(b)) => {
            if left.marks.same(&right.marks) {
                Ok(Some(Node {
                    kind: left.kind,
                    attrs: left.attrs.copy(alloc)?,
                    marks: left.marks.copy(alloc)?,
                    body: Body::Text(a.join(alloc, b)?),
                }))
            } else {
                Ok(None)
            }
        }
        _ => Ok(None),
    }
}
