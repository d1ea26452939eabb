//! Parts of a content as contents of their own.
ghost use Rattle.std.specs.Prelude.{◌≡◌, [], ◌+◌, ◌<◌, ◌≤◌, ◌^◌, ◌++◌, length, IfOk, OnOk};
ghost use Rattle.pm_node.specs.Trees.{node_tokens, body_tokens, list_tokens, IsNormal, EachWhole};
ghost use Rattle.pm_slice.specs.Sides.{clipped, Clipped};

use pm_marks::Same;
use pm_node::{Body, Children, Fragment, Node};
use std::alloc::{AllocError, Global};
use std::sync::Arc;

/// The tokens from..to of a content, with the nodes around `from` opened before them and those around `to` closed after
/// them. It shares each whole node.
#[cycle(clip)]
pub fn clip(
    alloc: Global,
    content: &Fragment,
    from: usize,
    to: usize,
) -> Result<Fragment, AllocError>
    requires { from ≤ to }
    ensures tokens { IfOk result (λ f. f ≡ clipped content.now from to) }
    ensures small { IfOk result (λ f. length f ≤ length content.now) }
{
    let size = content.size();
    let start = size.min(from);
    let end = size.min(to);
    let made = clip_children(alloc, &content.children(), start, end)?;
    Ok(made)
}

/// The same of children that both positions are among.
#[cycle(clip)]
fn clip_children(
    alloc: Global,
    children: &Children<'_>,
    from: usize,
    to: usize,
) -> Result<Fragment, AllocError>
    requires order { from ≤ to }
    requires within { to ≤ length (list_tokens children.now) }
    requires bound { length (list_tokens children.now) < 2 ^ 32 }
    requires normal { IsNormal children.now }
    requires each { EachWhole children.now }
    ensures tokens { IfOk result (λ f. f ≡ clipped (list_tokens children.now) from to) }
    ensures small { IfOk result (λ f. length f ≤ length (list_tokens children.now)) }
{
    let mut made = Fragment::new(alloc);
    let next = put_first(alloc, &mut made, children, from, to)?;
    let last = children.find(to);
    if last.index < next {
        return Ok(made);
    }
    made.append(alloc, children, next, last.index)?;
    if last.rest == 0 {
        return Ok(made);
    }
    put_part(alloc, &mut made, children.get(last.index), 0, last.rest)?;
    Ok(made)
}

/// Puts the part of the child that `from` is inside of, if it is inside of one, into an empty fragment. The result is the
/// number of the child that comes next.
#[cycle(clip)]
fn put_first(
    alloc: Global,
    made: &mut Fragment,
    children: &Children<'_>,
    from: usize,
    to: usize,
) -> Result<usize, AllocError>
    requires empty { made.old ≡ [] }
    requires order { from ≤ to }
    requires within { to ≤ length (list_tokens children.now) }
    requires bound { length (list_tokens children.now) < 2 ^ 32 }
    requires normal { IsNormal children.now }
    requires each { EachWhole children.now }
    ensures { IfOk result (λ next. Clipped children.now next from to made.new) }
{
    let first = children.find(from);
    if first.rest == 0 {
        return Ok(first.index);
    }
    let end = to - (from - first.rest);
    put_part(alloc, made, children.get(first.index), first.rest, end)?;
    Ok(first.index + 1)
}

/// Appends the part of a node that is not whole in it to the others.
#[cycle(clip)]
fn put_part(
    alloc: Global,
    made: &mut Fragment,
    node: &Node,
    from: usize,
    to: usize,
) -> Result<(), AllocError>
    requires room { length made.old + length (node_tokens node.now) < 2 ^ 32 }
    requires order { from ≤ to }
    requires start { from < length (node_tokens node.now) }
    requires some { 0 < to }
    requires parted { from ≡ 0 → to < length (node_tokens node.now) }
    ensures tokens { OnOk result (made.new ≡ made.old ++ clipped (node_tokens node.now) from to) }
    ensures small { OnOk result (length (clipped (node_tokens node.now) from to) ≤ length (node_tokens node.now)) }
{
    let part = clip_part(alloc, node, from, to)?;
    let shared = Arc::new(alloc, part)?;
    made.push(alloc, shared)?;
    Ok(())
}

/// The part of a node that is not whole in it.
#[cycle(clip)]
fn clip_part(alloc: Global, node: &Node, from: usize, to: usize) -> Result<Node, AllocError>
    requires order { from ≤ to }
    requires start { from < length (node_tokens node.now) }
    requires some { 0 < to }
    requires parted { from ≡ 0 → to < length (node_tokens node.now) }
    ensures tokens { IfOk result (λ n. node_tokens n ≡ clipped (node_tokens node.now) from to) }
    ensures small { IfOk result (λ n. length (node_tokens n) ≤ length (node_tokens node.now)) }
{
    match &node.body {
        Body::Text(units) => {
            let end = units.len().min(to);
            let cut = units.cut(alloc, from, end)?;
            with_body(alloc, node, Body::Text(cut))
        }
        Body::Leaf => with_body(alloc, node, Body::Leaf),
        Body::Children(content) => {
            let _ = content.size();
            let start = from.saturating_sub(1);
            let inner = clip(alloc, content, start, to - 1)?;
            with_body(alloc, node, Body::Children(inner))
        }
    }
}

/// A node with the type, attributes and marks of another one.
fn with_body(alloc: Global, head: &Node, body: Body) -> Result<Node, AllocError>
    ensures { IfOk result (λ n. node_tokens n ≡ body_tokens head.now.kind head.now.attrs head.now.marks body) }
{
    Ok(Node {
        kind: head.kind,
        attrs: head.attrs.copy(alloc)?,
        marks: head.marks.copy(alloc)?,
        body,
    })
}
