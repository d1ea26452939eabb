//! The check of a change by the innermost node around it.
ghost use Rattle.std.specs.Prelude.{◌<◌, ◌≤◌, IsTrue, IfSome};
ghost use Rattle.pm_schema.specs.Documents.{documents_of};
ghost use Rattle.pm_node.specs.Trees.{node_tokens};
ghost use Rattle.pm_node.specs.Changes.{Holds, Keeps, NodeKeeps, IsPlace, IsSameBehind};

use crate::children::Children;
use crate::node::{Body, Fragment, Node};
use crate::touched::content_stays;
use pm_auto::TypeId;
use pm_schema::Schema;
use std::alloc::Global;

/// Where two contents differ: the tokens from..to of the one are from..new_to of the other.
#[derive(Clone, Copy)]
pub struct Difference {
    pub from: usize,
    pub to: usize,
    pub new_to: usize,
}

/// Two nodes that begin at one place, by their numbers in two lists.
#[derive(Drop)]
struct Pair {
    start: usize,
    before: usize,
    after: usize,
}

/// Whether content that had no fault before a change has none after it, told by a check of the innermost node around the
/// change alone. `false` says nothing: there may be a fault, or no memory for the check.
#[cycle(around)]
pub fn stays_valid_around(
    alloc: Global,
    schema: &Schema,
    kind: TypeId,
    before: &Fragment,
    after: &Fragment,
    change: Difference,
    levels: usize,
) -> bool
    requires order { change.from ≤ change.to }
    requires new_order { change.from ≤ change.new_to }
    ensures { IsTrue result → Keeps (documents_of schema.now.spec) kind levels before.now after.now change.from change.to change.new_to }
{
    let _ = before.size();
    let _ = after.size();
    let old = before.children();
    let new = after.children();
    match child_around(&old, &new, change) {
        Some(pair) => {
            let inner = Difference {
                from: change.from - pair.start,
                to: change.to - pair.start,
                new_to: change.new_to - pair.start,
            };
            node_stays_valid(
                alloc,
                schema,
                old.get(pair.before),
                new.get(pair.after),
                inner,
                levels,
            )
        }
        None => match content_stays(alloc, schema, kind, before, after, change, levels) {
            Ok(stays) => stays,
            Err(_) => false,
        },
    }
}

/// The same for a node, whose content the change is in. The change is told from the node's first token on.
#[cycle(around)]
fn node_stays_valid(
    alloc: Global,
    schema: &Schema,
    before: &Node,
    after: &Node,
    change: Difference,
    levels: usize,
) -> bool
    requires inside { 0 < change.from }
    requires order { change.from ≤ change.to }
    requires new_order { change.from ≤ change.new_to }
    ensures { IsTrue result → NodeKeeps (documents_of schema.now.spec) levels (node_tokens before.now) (node_tokens after.now) change.from change.to change.new_to }
{
    match (&before.body, &after.body) {
        (Body::Children(old), Body::Children(new)) => {
            let inner = Difference {
                from: change.from - 1,
                to: change.to - 1,
                new_to: change.new_to - 1,
            };
            if levels == 0 {
                return false;
            }
            if !same_behind(old.size(), inner.to, new.size(), inner.new_to) {
                return false;
            }
            stays_valid_around(alloc, schema, before.kind, old, new, inner, levels - 1)
        }
        _ => false,
    }
}

/// Whether both ends are within their sizes, with as many tokens after them.
fn same_behind(size: usize, to: usize, new_size: usize, new_to: usize) -> bool
    ensures { IsTrue result → IsSameBehind size to new_size new_to }
{
    to <= size && new_to <= new_size && size - to == new_size - new_to
}

/// The node around a change in both of two lists, unless it is a text or a leaf in one of them. There is none where the change
/// cuts the node in two: then the change is in the content around it.
fn child_around(old: &Children<'_>, new: &Children<'_>, change: Difference) -> Option<Pair>
    requires order { change.from ≤ change.to }
    requires new_order { change.from ≤ change.new_to }
    ensures before { IfSome result (λ p. IsPlace old.now p.before p.start) }
    ensures after { IfSome result (λ p. IsPlace new.now p.after p.start) }
    ensures inside { IfSome result (λ p. p.start < change.from) }
{
    let (before, start) = child_at(old, change.from)?;
    let (after, new_start) = child_at(new, change.from)?;
    let inside = start == new_start
        && start < change.from
        && change.to - start < old.get(before).size()
        && change.new_to - start < new.get(after).size()
        && is_inner(old.get(before))
        && is_inner(new.get(after));
    if inside {
        Some(Pair {
            start,
            before,
            after,
        })
    } else {
        None
    }
}

/// The number of the child that has the token at a position, and where its first token stands.
fn child_at(children: &Children<'_>, position: usize) -> Option<(usize, usize)>
    ensures { IfSome result (λ p. IsPlace children.now p.0 p.1) }
{
    if position > children.size() {
        return None;
    }
    let found = children.find(position);
    if found.index < children.len() {
        Some((found.index, position - found.rest))
    } else {
        None
    }
}

/// Whether the node holds nodes.
fn is_inner(node: &Node) -> bool {
    matches!(node.body, Body::Children(_))
}
