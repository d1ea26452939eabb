//! The types of children, walked by an automaton.
ghost use Rattle.std.specs.Prelude.{◌≡◌, ◌≤◌, ◌<◌, ◌++◌, ℕ, List, true, length, take, drop, IsTrue, IfOk, IfSome};
ghost use Rattle.pm_auto.specs.Walks.{accepted, via};
ghost use Rattle.pm_tokens.specs.Scan.{part};
ghost use Rattle.pm_node.specs.Kinds.{kind_in, kinds};
ghost use Rattle.pm_node.specs.Reached.{IsFront};
ghost use Rattle.pm_node.specs.Touching.{LeadsOn};

use crate::children::Children;
use crate::node::{Body, Node};
use crate::reached::only_state;
use crate::touched::Touched;
use pm_auto::{Auto, State, TypeId};
use std::alloc::{AllocError, Global};

/// The type that the node counts as among its parent's children, where texts count as the type `text`.
fn kind_of(node: &Node, text: TypeId) -> TypeId
    ensures { result ≡ kind_in text node.now }
{
    match &node.body {
        Body::Text(_) => text,
        Body::Leaf => node.kind,
        Body::Children(_) => node.kind,
    }
}

/// The state to which the types of the children from..to lead from a state, if they lead anywhere.
pub(crate) fn walk(
    automaton: &Auto,
    text: TypeId,
    children: &Children<'_>,
    from: usize,
    to: usize,
    state: State,
) -> Option<State>
    requires state { state < length automaton.now.sets }
    requires order { from ≤ to }
    requires within { to ≤ length children.now }
    ensures leads { (w : List ℕ) → accepted automaton.now.sets automaton.now.edges state (kinds text (part from to children.now) ++ w)
        ≡ via (λ t. accepted automaton.now.sets automaton.now.edges t w) result }
    ensures inside { IfSome result (λ t. t < length automaton.now.sets) }
{
    let mut state = state;
    for i in from..to {
        let kind = kind_of(children.get(i), text);
        match automaton.next(state, kind) {
            Some(next) => state = next,
            None => return None,
        }
    }
    Some(state)
}

/// Whether the types of the children from `from` on lead from the state `new` to a valid end if they do so from the state `old`.
/// It looks at no more of them than it takes until both lead to one state.
pub(crate) fn ends_alike(
    automaton: &Auto,
    text: TypeId,
    children: &Children<'_>,
    from: usize,
    old: State,
    new: State,
) -> bool
    requires old { old < length automaton.now.sets }
    requires new { new < length automaton.now.sets }
    requires within { from ≤ length children.now }
    ensures { IsTrue result → accepted automaton.now.sets automaton.now.edges old (kinds text (drop from children.now)) ≡ true
        → accepted automaton.now.sets automaton.now.edges new (kinds text (drop from children.now)) ≡ true }
{
    let mut left = old;
    let mut right = new;
    for i in from..children.len() {
        if left == right {
            return true;
        }
        let kind = kind_of(children.get(i), text);
        match (automaton.next(left, kind), automaton.next(right, kind)) {
            (Some(old_next), Some(new_next)) => {
                left = old_next;
                right = new_next;
            }
            _ => return false,
        }
    }
    automaton.valid_end(right)
}

/// How many children may stand before a change and be gone through.
const FAR: usize = 64;

/// The state after the first `upto` children. Where they are many, it looks at the last one alone, if its type leads to one
/// state whatever stands before it, as in most schemas; else at all of them.
fn front_state(
    alloc: Global,
    automaton: &Auto,
    text: TypeId,
    children: &Children<'_>,
    upto: usize,
) -> Result<Option<State>, AllocError>
    requires within { upto ≤ length children.now }
    ensures leads { IfOk result (λ o. IfSome o (IsFront automaton.now.sets automaton.now.edges (kinds text (take upto children.now)))) }
    ensures inside { IfOk result (λ o. IfSome o (λ s. s < length automaton.now.sets)) }
{
    if upto > FAR {
        let last = kind_of(children.get(upto - 1), text);
        if let Some(state) = only_state(alloc, automaton, last)? {
            return Ok(Some(state));
        }
    }
    Ok(walk(automaton, text, children, 0, upto, automaton.start()))
}

/// Whether the types of the new children lead to a valid end if those of the old ones do, where the lists differ in the touched
/// children alone. Before them it looks at no more than it has to, at the touched ones, and after them at no more than it
/// has to.
pub(crate) fn types_fit(
    alloc: Global,
    automaton: &Auto,
    text: TypeId,
    old: &Children<'_>,
    new: &Children<'_>,
    touched: Touched,
) -> Result<bool, AllocError>
    requires order { touched.from ≤ touched.to }
    requires within { touched.to ≤ length old.now }
    requires new_order { touched.new_from ≤ touched.new_to }
    requires new_within { touched.new_to ≤ length new.now }
    ensures { IfOk result (λ b. IsTrue b → LeadsOn text automaton.now.sets automaton.now.edges old.now new.now touched) }
{
    let Some(state) = front_state(alloc, automaton, text, old, touched.from)? else {
        return Ok(false);
    };
    let Some(left) = walk(automaton, text, old, touched.from, touched.to, state) else {
        return Ok(false);
    };
    let Some(right) = walk(
        automaton,
        text,
        new,
        touched.new_from,
        touched.new_to,
        state,
    ) else {
        return Ok(false);
    };
    Ok(ends_alike(automaton, text, old, touched.to, left, right))
}
