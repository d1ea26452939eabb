//! Fragments: made of nodes, copied, and their children by number.
ghost use Rattle.std.specs.Prelude.{◌≡◌, ◌<◌, ◌≤◌, ◌+◌, ◌^◌, length, slice_index_or, [], ◌++◌, ◌↔◌, IsTrue, IfOk, OnOk};
ghost use Rattle.pm_tokens.specs.Scan.{part};
ghost use Rattle.pm_tokens.specs.Kids.{children, text_tokens};
ghost use Rattle.pm_node.specs.Trees.{node_tokens, nodes_tokens, list_tokens, Meets, IsNormal, EachWhole};

use crate::children::Children;
use crate::chunks::join_first;
use crate::node::{Body, Fragment, Node};
use pm_attrs::Attrs;
use pm_marks::MarkSet;
use pm_units::Units;
use std::alloc::{AllocError, Global};
use std::sync::Arc;

/// The greatest number of tokens of a fragment. A text of more units has no room in one.
pub(crate) const MAX_TOKENS: usize = 0xFFFF_FFFF;

impl Fragment {
    /// Whether the nodes have at most 2^32 - 1 tokens together. It takes no memory.
    pub fn can_hold(nodes: &[Node]) -> bool
        ensures { IsTrue result ↔ (length (nodes_tokens nodes.now) < 2 ^ 32) }
    {
        let mut total = 0;
        for node in nodes {
            let size = node.size();
            if size > MAX_TOKENS - total {
                return false;
            }
            total += size;
        }
        true
    }

    /// The nodes in order, with neighbouring texts of equal marks joined and empty texts let go.
    pub fn from_nodes(alloc: Global, nodes: Vec<Node>) -> Result<Fragment, AllocError>
        requires { length (nodes_tokens nodes.items) < 2 ^ 32 }
        ensures { IfOk result (λ f. f ≡ nodes_tokens nodes.items) }
    {
        let mut made = Fragment::new(alloc);
        let mut last = None;
        for node in nodes {
            last = Some(match last {
                None => node,
                Some(before) => {
                    if meets(&before, &node) {
                        joined(alloc, before, &node)?
                    } else {
                        made.push(alloc, Arc::new(alloc, before)?)?;
                        node
                    }
                }
            });
        }
        if let Some(node) = last {
            made.push(alloc, Arc::new(alloc, node)?)?;
        }
        Ok(made)
    }

    /// One text of these units with these marks, or no node for no units.
    pub fn from_text(
        alloc: Global,
        marks: &MarkSet<Attrs>,
        units: &Units,
    ) -> Result<Fragment, AllocError>
        requires { length units.now < 2 ^ 32 }
        ensures { IfOk result (λ f. f ≡ text_tokens marks.now units.now) }
    {
        let text = Node {
            kind: 0,
            attrs: Attrs::new(Vec::new(alloc)),
            marks: marks.copy(alloc)?,
            body: Body::Text(units.copy(alloc)?),
        };
        let mut made = Fragment::new(alloc);
        made.push(alloc, Arc::new(alloc, text)?)?;
        Ok(made)
    }

    /// The same nodes, shared with these.
    pub fn copy(&self, alloc: Global) -> Result<Fragment, AllocError>
        ensures { IfOk result (λ f. f ≡ self.now) }
    {
        Ok(Fragment {
            nodes: self.nodes.copy(alloc)?,
        })
    }

    /// Puts the children from..to of another fragment after the last node. They are shared with it, whole chunks at once
    /// but for those at the two ends. A text is joined with a text of equal marks before it. After an error the fragment may hold some
    /// of them.
    pub fn append(
        &mut self,
        alloc: Global,
        source: &Children<'_>,
        from: usize,
        to: usize,
    ) -> Result<(), AllocError>
        requires order { from ≤ to }
        requires within { to ≤ length source.now }
        requires normal { IsNormal source.now }
        requires each { EachWhole source.now }
        requires room { length self.old + length (list_tokens (part from to source.now)) < 2 ^ 32 }
        ensures { OnOk result (self.new ≡ self.old ++ list_tokens (part from to source.now)) }
    {
        let i = join_first(alloc, &mut self.nodes, source, from, to)?;
        self.nodes.append(alloc, source.nodes, i, to)?;
        Ok(())
    }

    /// The number of children: each leaf, each open up to its close, and each longest run of neighbouring units with equal
    /// marks. It takes no memory.
    pub fn len(&self) -> usize
        ensures { result ≡ length (children self.now) }
    {
        let children = self.children();
        children.len()
    }

    /// Child `i`, counted from 0. It takes no memory.
    pub fn child(&self, i: usize) -> &Node
        requires { i < length (children self.now) }
        ensures { node_tokens result.now ≡ slice_index_or (children self.now) i [] }
    {
        let children = self.children();
        children.get(i)
    }
}

/// Whether both are texts, with equal marks.
fn meets(left: &Node, right: &Node) -> bool
    ensures { IsTrue result ↔ Meets left.now right.now }
{
    match (&left.body, &right.body) {
        (Body::Text(_), Body::Text(_)) => left.marks.same(&right.marks),
        _ => false,
    }
}

/// The text with the units of the next one put after its own.
fn joined(alloc: Global, text: Node, next: &Node) -> Result<Node, AllocError>
    requires { Meets text next.now }
    ensures { IfOk result (λ n. node_tokens n ≡ node_tokens text ++ node_tokens next.now) }
{
    let Node {
        kind,
        attrs,
        marks,
        body,
    } = text;
    let Body::Text(more) = &next.body else {
        unreachable!();
    };
    match body {
        Body::Text(units) => {
            let mut units = units;
            units.append(alloc, more)?;
            Ok(Node {
                kind,
                attrs,
                marks,
                body: Body::Text(units),
            })
        }
        body => Ok(Node {
            kind,
            attrs,
            marks,
            body,
        }),
    }
}
