//! What a history tells of its steps.
ghost use Rattle.std.specs.Prelude.{◌≡◌, ◌<◌, ◌+◌, ◌++◌, drop, length, IfOk, IfSome, IsSome, ◌↔◌, Some};
ghost use Rattle.pm_history.specs.Histories.{later_of};
ghost use Rattle.pm_history.specs.Pairs.{paired};
ghost use Rattle.pm_history.specs.Remembers.{names_of, live_names};
ghost use Rattle.pm_history.specs.Starts.{start_of};
ghost use Rattle.pm_history.specs.Tidy.{NamesDiffer};
ghost use Rattle.pm_history.specs.Tries.{item_from};
ghost use Rattle.pm_history.specs.Trims.{IsTrimmed, inverses, live_count, inverse_in};
ghost use Rattle.pm_history.specs.Undos.{find};

use crate::branch::Event;
use crate::branches::Branches;
use crate::item::Item;
use crate::later::Later;
use crate::latest::earliest;
use crate::trimming::{Held, has_inverse, inverses};
use crate::undoing::place_of;
use pm_change::Name;
use pm_map::Mapping;
use std::alloc::{AllocError, Global};

impl<C> Branches<C> {
    /// How many items are kept, and how many of them with the changes that undo them, which those of each live step count as.
    /// It takes no memory.
    pub fn held(&self) -> Held
        ensures items { result.items ≡ length self.now.items }
        ensures inverses { result.inverses ≡ inverses (live_names self.now) self.now.items }
        // Right after a call that trims, the inverses kept are those of the live steps.
        ensures trimmed { IsTrimmed self.now → result.inverses ≡ live_count (live_names self.now) self.now.items }
    {
        let items = self.items.as_slice();
        Held {
            items: items.len() as u64,
            inverses: inverses(items, self.undo.events(), self.redo.events()),
        }
    }

    /// The items from the first one on that is a step of these names, where the items' names differ, as those of a client's
    /// history do. Each name is looked for where its serial leads, and else from the last item on: where all are found, few items
    /// before the first are looked at.
    pub fn since(&self, names: &[Name]) -> &[Item<C>]
        ensures { NamesDiffer self.now.items → result.now ≡ drop (start_of names.now self.now.items) self.now.items }
    {
        let items = self.items();
        let start = earliest(names, items);
        &items[start..]
    }

    /// The maps of the steps after the own step of this name, each with its mirror. None exactly where no item of
    /// this name is kept.
    pub fn later(&self, alloc: Global, name: Name) -> Result<Option<Mapping>, AllocError>
        ensures { IfOk result (λ o. o ≡ later_of (find name self.now.items)) }
    {
        let items = self.items();
        match place_of(name, items) {
            Some(k) => Ok(Some(mapping_behind(alloc, items, k)?)),
            None => Ok(None),
        }
    }

    /// The changes that undo the own step of this name, made one after another right after it. None exactly where no item of
    /// this name is kept with them: a live step's are, and those of another only until the history is trimmed. It takes no
    /// memory.
    pub fn inverse(&self, name: Name) -> Option<&[C]>
        ensures none { IsSome result ↔ IsSome (inverse_in (live_names self.now) (find name self.now.items)) }
        ensures value { IfSome result (λ cs. inverse_in (live_names self.now) (find name self.now.items) ≡ Some cs.now) }
    {
        let items = self.items.as_slice();
        match place_of(name, items) {
            Some(k) => inverse_at(items, k, self.undo.events(), self.redo.events()),
            None => None,
        }
    }
}

/// The changes that undo the step at place `k`, where they are kept.
fn inverse_at<'a, C>(
    items: &'a [Item<C>],
    k: usize,
    undo: &[Event],
    redo: &[Event],
) -> Option<&'a [C]>
    requires { k < length items.now }
    ensures none { IsSome result ↔ IsSome (inverse_in (names_of undo.now ++ names_of redo.now) (item_from items.now (Some k))) }
    ensures value { IfSome result (λ cs. inverse_in (names_of undo.now ++ names_of redo.now) (item_from items.now (Some k)) ≡ Some cs.now) }
{
    let item = &items[k];
    if has_inverse(item, undo, redo) {
        return Some(item.inverse());
    }
    None
}

/// The maps after place `k`.
fn mapping_behind<C>(alloc: Global, items: &[Item<C>], k: usize) -> Result<Mapping, AllocError>
    requires { k < length items.now }
    ensures { IfOk result (λ ms. ms ≡ paired (drop (k + 1) items.now)) }
{
    let later = Later::whole(alloc, &items[k + 1..], &items[items.len()..])?;
    Ok(Mapping::from_entries(later.entries(alloc)?))
}
