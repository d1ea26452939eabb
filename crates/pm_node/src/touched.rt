//! The check of a change by the children that it touches.
ghost use Rattle.std.specs.Prelude.{◌≡◌, ◌≤◌, ◌+◌, ◌<◌, ◌^◌, length, IsTrue, IfOk, IfSome};
ghost use Rattle.pm_schema.specs.Documents.{documents_of};
ghost use Rattle.pm_node.specs.Trees.{list_tokens};
ghost use Rattle.pm_node.specs.Changes.{Keeps};
ghost use Rattle.pm_node.specs.Touching.{Sound, IsStart, SameFront, SameBack, IsTouched};

use crate::around::Difference;
use crate::check::nodes_fault;
use crate::children::Children;
use crate::depth::nests_within;
use crate::node::Fragment;
use crate::pairs::first_broken;
use crate::types::types_fit;
use pm_auto::TypeId;
use pm_schema::Schema;
use std::alloc::{AllocError, Global};

/// The children that a change touches: from..to of the one list, and new_from..new_to of the other. Before and after them the
/// lists are the same.
#[derive(Clone, Copy, Drop)]
pub(crate) struct Touched {
    pub(crate) from: usize,
    pub(crate) to: usize,
    pub(crate) new_from: usize,
    pub(crate) new_to: usize,
}

/// Whether content of a node of the type that had no fault before a change has none after it, told by a check of the children
/// that the change touches and by the types of those around them. `false` says nothing.
pub(crate) fn content_stays(
    alloc: Global,
    schema: &Schema,
    kind: TypeId,
    before: &Fragment,
    after: &Fragment,
    change: Difference,
    levels: usize,
) -> Result<bool, AllocError>
    ensures { IfOk result (λ b. IsTrue b → Keeps (documents_of schema.now.spec) kind levels before.now after.now change.from change.to change.new_to) }
{
    let old = before.children();
    let new = after.children();
    let Some(touched) = touched_children(&old, &new, change) else {
        return Ok(false);
    };
    if kind >= schema.node_count() {
        return Ok(false);
    }
    let automaton = schema.auto(kind);
    let fit = types_fit(alloc, automaton, schema.text_type(), &old, &new, touched)?;
    if !fit {
        return Ok(false);
    }
    let mut inner = Fragment::new(alloc);
    inner.append(alloc, &new, touched.new_from, touched.new_to)?;
    Ok(is_sound(alloc, schema, kind, &inner, levels))
}

/// Whether the nodes have no fault, as children of a node of the type. Running out of memory counts as a fault.
fn is_sound(alloc: Global, schema: &Schema, kind: TypeId, content: &Fragment, levels: usize) -> bool
    requires { kind < length schema.now.spec.nodes }
    ensures { IsTrue result → Sound (documents_of schema.now.spec) kind levels content.now }
{
    let _ = content.size();
    if !nests_within(content, levels) {
        return false;
    }
    if let Some(_) = first_broken(content, 0) {
        return false;
    }
    match nodes_fault(alloc, schema, kind, content, 0) {
        Ok(()) => true,
        Err(_) => false,
    }
}

/// The children that a change touches.
fn touched_children(old: &Children<'_>, new: &Children<'_>, change: Difference) -> Option<Touched>
    ensures { IfSome result (λ t. IsTouched old.now new.now t change.from change.to) }
{
    let (from, new_from) = front(old, new, change.from)?;
    let (to, new_to) = back(old, new, change.to, change.new_to)?;
    if from <= to && new_from <= new_to {
        Some(Touched {
            from,
            to,
            new_from,
            new_to,
        })
    } else {
        None
    }
}

/// How many children of each list stand before a position up to which both are the same. The child that ends there is left out
/// where it may have grown.
fn front(old: &Children<'_>, new: &Children<'_>, pos: usize) -> Option<(usize, usize)>
    ensures { IfSome result (λ p. SameFront old.now new.now pos p.0 p.1) }
{
    match front_at(old, new, pos) {
        Some(found) => Some(found),
        None => {
            if pos == 0 {
                return None;
            }
            front_at(old, new, pos - 1)
        }
    }
}

/// The same, where the last children before the position end at one place.
fn front_at(old: &Children<'_>, new: &Children<'_>, pos: usize) -> Option<(usize, usize)>
    ensures { IfSome result (λ p. SameFront old.now new.now pos p.0 p.1) }
{
    if pos > old.size() || pos > new.size() {
        return None;
    }
    let left = old.find(pos);
    let right = new.find(pos);
    if left.rest == right.rest {
        Some((left.index, right.index))
    } else {
        None
    }
}

/// The first child of each list that stands after two positions from which on both are the same. The child that begins there
/// is left out where it may have grown.
fn back(old: &Children<'_>, new: &Children<'_>, to: usize, new_to: usize) -> Option<(usize, usize)>
    ensures { IfSome result (λ p. SameBack old.now new.now to p.0 p.1) }
{
    match back_at(old, new, to, new_to) {
        Some(found) => Some(found),
        None => {
            if to >= old.size() || new_to >= new.size() {
                return None;
            }
            back_at(old, new, to + 1, new_to + 1)
        }
    }
}

/// The same, where the first children after the positions begin with as many tokens left.
fn back_at(
    old: &Children<'_>,
    new: &Children<'_>,
    to: usize,
    new_to: usize,
) -> Option<(usize, usize)>
    ensures { IfSome result (λ p. SameBack old.now new.now to p.0 p.1) }
{
    let (left, start) = next_start(old, to)?;
    let (right, new_start) = next_start(new, new_to)?;
    if old.size() - start == new.size() - new_start {
        Some((left, right))
    } else {
        None
    }
}

/// The first child that begins at a position or after it, and where it begins.
fn next_start(children: &Children<'_>, pos: usize) -> Option<(usize, usize)>
    ensures { IfSome result (λ p. IsStart children.now pos p.0 p.1) }
{
    if pos > children.size() {
        return None;
    }
    let found = children.find(pos);
    if found.rest == 0 {
        return Some((found.index, pos));
    }
    let _ = children.len();
    let size = children.get(found.index).size();
    Some((found.index + 1, pos - found.rest + size))
}
