//! Where a type leads from all states that an automaton reaches.
ghost use Rattle.std.specs.Prelude.{◌≡◌, ℕ, ◌<◌, length, IsTrue, IfOk, IfSome, OnOk};
ghost use Rattle.pm_node.specs.Reached.{IsAmong, AreBelow, Continue, LeadInto, LeadTo, IsOnly};

use pm_auto::{Auto, State, TypeId};
use std::alloc::{AllocError, Global};

/// How many states are looked at.
const MOST: usize = 32;

/// The state to which the type leads from each state that the automaton reaches and in which it may come next, if that is one
/// state, and the automaton reaches few.
pub(crate) fn only_state(
    alloc: Global,
    automaton: &Auto,
    kind: TypeId,
) -> Result<Option<State>, AllocError>
    ensures only { IfOk result (λ o. IfSome o (IsOnly automaton.now.sets automaton.now.edges kind)) }
    ensures inside { IfOk result (λ o. IfSome o (λ r. r < length automaton.now.sets)) }
{
    let mut found = Vec::new(alloc);
    found.push(automaton.start())?;
    let mut i = 0;
    while i < found.len() {
        if i >= MOST {
            return Ok(None);
        }
        let state = found[i];
        add_targets(automaton, state, &mut found)?;
        i += 1;
    }
    Ok(agreed(automaton, kind, &found))
}

/// Puts the states to which a state's edges lead after those that were found.
fn add_targets(automaton: &Auto, state: State, found: &mut Vec<State>) -> Result<(), AllocError>
    requires state { state < length automaton.now.sets }
    requires below { AreBelow (length automaton.now.sets) found.old.items }
    ensures below { OnOk result (AreBelow (length automaton.now.sets) found.new.items) }
    ensures on { OnOk result (Continue found.old.items found.new.items) }
    ensures leads { OnOk result (LeadInto automaton.now.edges state found.new.items) }
{
    for edge in automaton.edges(state) {
        if let Some(next) = automaton.next(state, edge.kind) {
            add(found, next)?;
        }
    }
    Ok(())
}

/// Puts a state after those that were found, unless it is one of them.
fn add(found: &mut Vec<State>, state: State) -> Result<(), AllocError>
    ensures on { OnOk result (Continue found.old.items found.new.items) }
    ensures among { OnOk result (IsAmong found.new.items state) }
    ensures below { OnOk result ((n : ℕ) → state < n → AreBelow n found.old.items → AreBelow n found.new.items) }
{
    if has(found, state) {
        return Ok(());
    }
    found.push(state)?;
    Ok(())
}

/// Whether the state is one of those that were found.
fn has(found: &[State], state: State) -> bool
    ensures { IsTrue result → IsAmong found.now state }
{
    for i in 0..found.len() {
        if found[i] == state {
            return true;
        }
    }
    false
}

/// The state to which the type leads from all of these in which it may come next, if that is one.
fn agreed(automaton: &Auto, kind: TypeId, found: &[State]) -> Option<State>
    requires { AreBelow (length automaton.now.sets) found.now }
    ensures leads { IfSome result (LeadTo automaton.now.edges kind found.now) }
    ensures inside { IfSome result (λ r. r < length automaton.now.sets) }
{
    let mut only = None;
    for i in 0..found.len() {
        if let Some(next) = automaton.next(found[i], kind) {
            if let Some(one) = only {
                if one != next {
                    return None;
                }
            }
            only = Some(next);
        }
    }
    only
}
