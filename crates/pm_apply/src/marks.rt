//! Contents with other marks.
ghost use Rattle.std.specs.Prelude.{◌≡◌, ℕ, ◌+◌, ◌<◌, ◌≤◌, ◌^◌, ◌∷◌, ◌++◌, List, length, take, drop, IfOk, OnOk};
ghost use Rattle.pm_tokens.specs.Tokens.{Open};
ghost use Rattle.pm_tokens.specs.Scan.{part};
ghost use Rattle.std.specs.Arc.{arc_value};
ghost use Rattle.pm_tokens.specs.Kids.{text_tokens};
ghost use Rattle.pm_node.specs.Trees.{node_tokens, body_tokens};
ghost use Rattle.pm_schema.specs.Documents.{documents_of};
ghost use Rattle.pm_apply.specs.Markings.{AreKnown, marked_in, new_marks};

use crate::between::children_in;
use crate::marking::{Reach, Sort, UNIT};
use crate::walk::Walk;
use pm_attrs::Attrs;
use pm_marks::{MarkSet, Same};
use pm_node::{Body, Fragment, Node, Units};
use std::alloc::{AllocError, Global};
use std::sync::Arc;

/// The content with the marks of the tokens from..to changed. It shares each node that has no token there.
#[cycle(mark)]
pub fn mark_content(
    alloc: Global,
    walk: &Walk<'_>,
    content: &Fragment,
    from: usize,
    to: usize,
    reach: Reach,
) -> Result<Fragment, AllocError>
    requires order { from ≤ to }
    requires parent { walk.now.parent < length walk.now.schema.now.spec.nodes }
    requires known { AreKnown (length walk.now.schema.now.spec.nodes) content.now }
    ensures { IfOk result (λ f. (ps : List ℕ)
        → f ≡ marked_in (new_marks (documents_of walk.now.schema.now.spec) walk.now.marking.now reach)
        (walk.now.parent ∷ ps) from to content.now) }
{
    let _ = content.size();
    let children = content.children();
    let touched = children_in(&children, from, to);
    let mut made = Fragment::new(alloc);
    made.append(alloc, &children, 0, touched.first)?;
    let mut start = from - touched.before;
    let mut end = to - touched.before;
    for i in touched.first..touched.end {
        let child = children.get(i);
        let size = child.size();
        mark_child(alloc, walk, child, start, end, reach, &mut made)?;
        start = start.saturating_sub(size);
        end = end.saturating_sub(size);
    }
    made.append(alloc, &children, touched.end, children.len())?;
    Ok(made)
}

/// Puts a child with the marks of its tokens from..to changed after the nodes that are made.
#[cycle(mark)]
fn mark_child(
    alloc: Global,
    walk: &Walk<'_>,
    node: &Arc<Node, Global>,
    from: usize,
    to: usize,
    reach: Reach,
    made: &mut Fragment,
) -> Result<(), AllocError>
    requires order { from ≤ to }
    requires parent { walk.now.parent < length walk.now.schema.now.spec.nodes }
    requires known { AreKnown (length walk.now.schema.now.spec.nodes) (node_tokens (arc_value node.now)) }
    requires room { length made.old + length (node_tokens (arc_value node.now)) < 2 ^ 32 }
    ensures { OnOk result ((ps : List ℕ) → made.new ≡ made.old
        ++ marked_in (new_marks (documents_of walk.now.schema.now.spec) walk.now.marking.now reach)
        (walk.now.parent ∷ ps) from to (node_tokens (arc_value node.now))) }
{
    let size = node.size();
    if to <= from {
        return push_shared(alloc, node, made);
    }
    if size <= from {
        return push_shared(alloc, node, made);
    }
    mark_part(alloc, walk, node, from, to, reach, made)
}

/// Puts the node itself after the nodes that are made.
fn push_shared(
    alloc: Global,
    node: &Arc<Node, Global>,
    made: &mut Fragment,
) -> Result<(), AllocError>
    requires { length made.old + length (node_tokens (arc_value node.now)) < 2 ^ 32 }
    ensures { OnOk result (made.new ≡ made.old ++ node_tokens (arc_value node.now)) }
{
    let shared = Arc::try_clone(node)?;
    made.push(alloc, shared)
}

/// The same for a node with at least one token there.
#[cycle(mark)]
fn mark_part(
    alloc: Global,
    walk: &Walk<'_>,
    node: &Node,
    from: usize,
    to: usize,
    reach: Reach,
    made: &mut Fragment,
) -> Result<(), AllocError>
    requires some { from < to }
    requires start { from < length (node_tokens node.now) }
    requires parent { walk.now.parent < length walk.now.schema.now.spec.nodes }
    requires known { AreKnown (length walk.now.schema.now.spec.nodes) (node_tokens node.now) }
    requires room { length made.old + length (node_tokens node.now) < 2 ^ 32 }
    ensures { OnOk result ((ps : List ℕ) → made.new ≡ made.old
        ++ marked_in (new_marks (documents_of walk.now.schema.now.spec) walk.now.marking.now reach)
        (walk.now.parent ∷ ps) from to (node_tokens node.now)) }
{
    match &node.body {
        Body::Text(units) => {
            let marks = walk.made(alloc, reach, UNIT, &node.marks)?;
            mark_text(alloc, node, units, from, to, &marks, made)
        }
        Body::Leaf => {
            let sort = Sort::of(walk.schema, node.kind, true);
            let marks = walk.made(alloc, reach, sort, &node.marks)?;
            push_with(alloc, node, marks, Body::Leaf, made)
        }
        Body::Children(inner) => {
            let _ = inner.size();
            let marks = mark_open(alloc, walk, node, from, reach)?;
            let start = from.saturating_sub(1);
            let inside = Walk {
                parent: node.kind,
                ..*walk
            };
            let inner = mark_content(alloc, &inside, inner, start, to - 1, reach)?;
            push_with(alloc, node, marks, Body::Children(inner), made)
        }
    }
}

/// The marks of a node that is no leaf and no text: changed, where its open stands in from..
fn mark_open(
    alloc: Global,
    walk: &Walk<'_>,
    node: &Node,
    from: usize,
    reach: Reach,
) -> Result<MarkSet<Attrs>, AllocError>
    requires parent { walk.now.parent < length walk.now.schema.now.spec.nodes }
    requires known { node.now.kind < length walk.now.schema.now.spec.nodes }
    ensures start { from ≡ 0 → IfOk result (λ m. m ≡ new_marks (documents_of walk.now.schema.now.spec) walk.now.marking.now reach
        walk.now.parent (Open node.now.kind node.now.attrs node.now.marks) node.now.marks) }
    ensures inside { 0 < from → IfOk result (λ m. m ≡ node.now.marks) }
{
    if from == 0 {
        let sort = Sort::of(walk.schema, node.kind, false);
        walk.made(alloc, reach, sort, &node.marks)
    } else {
        node.marks.copy(alloc)
    }
}

/// Puts a text after the nodes that are made, with these marks on its units from..to.
fn mark_text(
    alloc: Global,
    head: &Node,
    units: &Units,
    from: usize,
    to: usize,
    marks: &MarkSet<Attrs>,
    made: &mut Fragment,
) -> Result<(), AllocError>
    requires some { from < to }
    requires room { length made.old + length units.now < 2 ^ 32 }
    ensures { OnOk result (made.new ≡ made.old ++ (text_tokens head.now.marks (take from units.now)
        ++ (text_tokens marks.now (part from to units.now) ++ text_tokens head.now.marks (drop to units.now)))) }
{
    let len = units.len();
    let start = len.min(from);
    let end = len.min(to);
    let before = units.cut(alloc, 0, start)?;
    let between = units.cut(alloc, start, end)?;
    let behind = units.cut(alloc, end, len)?;
    push_with(
        alloc,
        head,
        head.marks.copy(alloc)?,
        Body::Text(before),
        made,
    )?;
    push_with(alloc, head, marks.copy(alloc)?, Body::Text(between), made)?;
    push_with(
        alloc,
        head,
        head.marks.copy(alloc)?,
        Body::Text(behind),
        made,
    )
}

/// Puts a node with the type and attributes of another one after the nodes that are made.
fn push_with(
    alloc: Global,
    head: &Node,
    marks: MarkSet<Attrs>,
    body: Body,
    made: &mut Fragment,
) -> Result<(), AllocError>
    requires { length made.old + length (body_tokens head.now.kind head.now.attrs marks body) < 2 ^ 32 }
    ensures { OnOk result (made.new ≡ made.old ++ body_tokens head.now.kind head.now.attrs marks body) }
{
    let attrs = head.attrs.copy(alloc)?;
    let node = Node {
        kind: head.kind,
        attrs,
        marks,
        body,
    };
    let node = Arc::new(alloc, node)?;
    made.push(alloc, node)
}
