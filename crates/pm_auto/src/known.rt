//! The states that were found, as bits.
ghost use Rattle.std.specs.Prelude.{◌≡◌, ◌++◌, ◌∷◌, [], true, IfOk, IfSome, OnOk};
ghost use Rattle.pm_auto.specs.Known.{Recalls};
ghost use Rattle.pm_auto.specs.Prints.{print_of, print_from};

use crate::auto::State;
use crate::sets::{BitSet, PlaceSet};
use pm_list::Listed;
use std::alloc::{AllocError, Global};

/// The most places for which there are more slots.
const MOST_SLOTS: usize = 4096;

/// A state that was found, with the print of its set.
#[derive(Drop)]
pub(crate) struct Known {
    pub set: BitSet,
    pub print: u64,
    pub state: State,
}

/// The states that were found. For each number that a print may leave over there is a slot with the index of one of them, which
/// is looked at first: so a state is mostly found at the first look, however many are known.
#[derive(Drop)]
pub(crate) struct KnownStates {
    pub states: Listed<Known>,
    pub slots: Vec<usize>,
}

/// No states, for an automaton of so many places.
pub(crate) fn no_states(alloc: Global, places: usize) -> Result<KnownStates, AllocError>
    ensures { IfOk result (λ k. k.states ≡ []) }
{
    let slots = vec![in alloc; 0; 8 * places.min(MOST_SLOTS) + 8]?;
    Ok(KnownStates {
        states: Listed::new(alloc),
        slots,
    })
}

/// The slot of a print.
fn slot_of(slots: &[usize], print: u64) -> usize {
    if slots.is_empty() {
        0
    } else {
        (print % slots.len() as u64) as usize
    }
}

/// Appends the state to the others, and into its slot.
pub(crate) fn remember(known: &mut KnownStates, state: Known) -> Result<(), AllocError>
    ensures { OnOk result (known.new.states ≡ known.old.states ++ state ∷ []) }
{
    let index = known.states.len();
    let slot = slot_of(known.slots.as_slice(), state.print);
    known.states.push(state)?;
    if slot < known.slots.len() {
        known.slots[slot] = index;
    }
    Ok(())
}

/// A number that equal sets share, so that a set is compared in full with few others, also where many begin alike.
pub(crate) fn print(set: &BitSet) -> u64 {
    let mut print: u64 = if set.ends { 1 } else { 0 };
    for word in set.words.as_slice() {
        print = (print ^ *word).wrapping_mul(11_400_714_819_323_198_485);
        print = print ^ (print >> 32);
    }
    print
}

/// The number of the state with this set and print, if it is one of those known.
pub(crate) fn recall(known: &KnownStates, set: &BitSet, print: u64) -> Option<State>
    ensures { IfSome result (λ t. Recalls set.now t known.now.states) }
{
    let slot = slot_of(known.slots.as_slice(), print);
    let index = if slot < known.slots.len() {
        known.slots[slot]
    } else {
        0
    };
    if let Some(state) = recall_at(known.states.as_slice(), index, set, print) {
        return Some(state);
    }
    recall_any(known.states.as_slice(), set, print)
}

/// The number of the state at the index, if it has this set and print.
fn recall_at(known: &[Known], index: usize, set: &BitSet, print: u64) -> Option<State>
    ensures { IfSome result (λ t. Recalls set.now t known.now) }
{
    if index >= known.len() {
        return None;
    }
    let other = &known[index];
    if other.print == print && is_same(&other.set, set) {
        Some(other.state)
    } else {
        None
    }
}

/// The number of the first state with this set and print.
fn recall_any(known: &[Known], set: &BitSet, print: u64) -> Option<State>
    ensures { IfSome result (λ t. Recalls set.now t known.now) }
{
    for other in known {
        if other.print == print && is_same(&other.set, set) {
            return Some(other.state);
        }
    }
    None
}

/// Whether the two have the same bits.
fn is_same(a: &BitSet, b: &BitSet) -> bool
    ensures { result ≡ true → a.now ≡ b.now }
{
    a.ends == b.ends && a.words.as_slice() == b.words.as_slice()
}

/// A number of the state's places, which equal states share.
pub(crate) fn print_of_list(set: &PlaceSet) -> u64
    ensures { result ≡ print_of set.now }
{
    print_of_places(set.places.as_slice())
}

/// A number of the list, which equal lists share.
fn print_of_places(places: &[usize]) -> u64
    ensures { result ≡ print_from 0 places.now }
{
    let mut print: u64 = 0;
    for place in places {
        print = print.wrapping_mul(31).wrapping_add(*place as u64);
    }
    print
}
