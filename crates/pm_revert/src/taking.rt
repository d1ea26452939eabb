//! Changes that undo entries, carried over what came since.
ghost use Rattle.std.specs.Prelude.{◌≡◌, Some, Ok};
ghost use Rattle.pm_map.specs.Moves.{inverted_ranges};
ghost use Rattle.pm_change.specs.Failing.{Answers};
ghost use Rattle.pm_revert.specs.Takings.{taken_one, taken_all, tried, passed};
ghost use Rattle.pm_revert.specs.Chains.{MayTake, MayTakeAll};

use crate::backs::Back;
use pm_authority::Refusal;
use pm_change::{Change, Failed};
use pm_list::Listed;
use pm_map::{Mapping, StepMap};
use std::alloc::{AllocError, Global};

/// How far entries were taken back. `maps` leads to `doc`, from the document before the entries that were gone through: over
/// the maps of these, over those of all that came since, and over those of the steps made. The map of a step made is the mirror
/// of that of the entry that it undoes. `made`: the steps made, in order.
#[derive(Drop)]
pub struct Taking<D, C> {
    pub doc: D,
    pub maps: Mapping,
    pub made: Listed<C>,
}

/// Makes each of these changes in turn, carried over the maps so far. One of which nothing is left is passed over. `Reason` comes
/// where a carried one does not apply, and tells the place of its entry.
pub fn take_all<C: Change>(
    alloc: Global,
    rules: &C::Rules,
    so: Taking<C::Doc, C>,
    backs: &[Back<C>],
) -> Result<Taking<C::Doc, C>, Failed<Refusal<C::Reason>>>
    requires { MayTakeAll C.means rules.now so backs.now }
    ensures { Answers (taken_all C.means rules.now so backs.now) result }
{
    let mut so_far = so;
    for back in backs {
        so_far = match take_one(alloc, rules, so_far, back) {
            Ok(next) => next,
            Err(failed) => return Err(failed),
        };
    }
    Ok(so_far)
}

/// Makes one change more.
fn take_one<C: Change>(
    alloc: Global,
    rules: &C::Rules,
    so: Taking<C::Doc, C>,
    back: &Back<C>,
) -> Result<Taking<C::Doc, C>, Failed<Refusal<C::Reason>>>
    requires { MayTake C.means rules.now so back.now }
    ensures { Answers (taken_one C.means rules.now so back.now) result }
{
    let front = back.change.step_map().inverted();
    match back.change.carry(alloc, &so.maps)? {
        Some(change) => put(alloc, rules, so, back, front, change),
        None => pass(so, back, front),
    }
}

/// Passes over a change of which nothing is left.
fn pass<C: Change>(
    so: Taking<C::Doc, C>,
    back: &Back<C>,
    front: StepMap,
) -> Result<Taking<C::Doc, C>, Failed<Refusal<C::Reason>>>
    requires { front ≡ inverted_ranges (C.means.step_map back.now.change) }
    ensures { Answers (Ok (passed C.means so back.now)) result }
{
    let Taking {
        doc,
        mut maps,
        made,
    } = so;
    let _ = back;
    maps.put_front(front)?;
    Ok(Taking { doc, maps, made })
}

/// Makes a change in its carried form, where it applies.
fn put<C: Change>(
    alloc: Global,
    rules: &C::Rules,
    so: Taking<C::Doc, C>,
    back: &Back<C>,
    front: StepMap,
    change: C,
) -> Result<Taking<C::Doc, C>, Failed<Refusal<C::Reason>>>
    requires front { front ≡ inverted_ranges (C.means.step_map back.now.change) }
    requires good { C.means.is_good rules.now so.doc }
    requires carried { C.means.carry back.now.change so.maps ≡ Some change }
    ensures { Answers (tried C.means so back.now change (C.means.outcome rules.now change so.doc)) result }
{
    let Taking {
        doc,
        mut maps,
        mut made,
    } = so;
    let next = match change.apply(alloc, rules, &doc) {
        Ok(next) => next,
        Err(Failed::Reason(reason)) => {
            let index = back.index;
            return Err(Failed::Reason(Refusal { index, reason }));
        }
        Err(Failed::NoMemory) => return Err(Failed::NoMemory),
    };
    let behind = change.step_map();
    maps.enclose(front, behind)?;
    made.push(change)?;
    Ok(Taking {
        doc: next,
        maps,
        made,
    })
}
