//! Letting go of what a history need not remember.
ghost use Rattle.std.specs.Prelude.{◌≡◌, ◌≤◌, ◌++◌, length, map};
ghost use Rattle.pm_history.specs.Live.{IsTableOfNames};
ghost use Rattle.pm_history.specs.Remembers.{names_of};
ghost use Rattle.pm_history.specs.Starts.{start_of};
ghost use Rattle.pm_history.specs.Trims.{thinned, trimmed_items, are_own, has_any, has_inverse, inverses};

use crate::branch::Event;
use crate::item::Item;
use crate::live::{Live, is_live};
use pm_change::Name;
use pm_list::Listed;
use std::alloc::Global;

/// How much a history holds. `items`: the items kept. `inverses`: those of them whose changes that undo them are kept.
#[derive(Clone, Copy, Drop, Debug, PartialEq, Eq)]
pub struct Held {
    pub items: u64,
    pub inverses: u64,
}

/// The items from the first live one on, and of those that are not live no change that undoes them. `names` are the live names,
/// and `live` is their table. It takes no memory.
pub fn trim<C>(
    alloc: Global,
    items: Listed<Item<C>>,
    names: &[Name],
    live: &Live,
) -> Listed<Item<C>>
where
    C: Drop,
    requires { IsTableOfNames live.now names.now }
    ensures { result ≡ trimmed_items names.now items }
{
    let mut items = items;
    let start = first_live(items.as_slice(), names, live);
    items.drop_front(start);
    Listed::from_vec(thin(alloc, items.into_vec(), names, live))
}

/// The place of the first live item, or the number of items.
fn first_live<C>(items: &[Item<C>], names: &[Name], live: &Live) -> usize
    requires { IsTableOfNames live.now names.now }
    ensures start { result ≡ start_of names.now items.now }
    ensures within { result ≤ length items.now }
{
    let mut passed = 0;
    for item in items {
        if live.has(names, item.name()) {
            return passed;
        }
        passed += 1;
    }
    passed
}

/// The items, and of those that are not live no change that undoes them.
fn thin<C>(alloc: Global, items: Vec<Item<C>>, names: &[Name], live: &Live) -> Vec<Item<C>>
where
    C: Drop,
    requires { IsTableOfNames live.now names.now }
    ensures { result.items ≡ map (thinned names.now) items.items }
{
    let mut items = items;
    let count = items.len();
    let mut i = 0;
    while i < count {
        thin_one(alloc, &mut items[i], names, live);
        i += 1;
    }
    items
}

/// Lets the changes that undo a step go, unless it is live.
fn thin_one<C>(alloc: Global, item: &mut Item<C>, names: &[Name], live: &Live)
where
    C: Drop,
    requires { IsTableOfNames live.now names.now }
    ensures { item.new ≡ thinned names.now item.old }
{
    if !live.has(names, item.name()) {
        item.forget(alloc);
    }
}

/// The items, and of those that are not live no change that undoes them. Each is looked for among the names of these events,
/// the last of which come first.
pub fn thin_kept<C>(
    alloc: Global,
    items: Vec<Item<C>>,
    undo: &[Event],
    redo: &[Event],
) -> Vec<Item<C>>
where
    C: Drop,
    ensures { result.items ≡ map (thinned (names_of undo.now ++ names_of redo.now)) items.items }
{
    let mut items = items;
    let count = items.len();
    let mut i = 0;
    while i < count {
        thin_named(alloc, &mut items[i], undo, redo);
        i += 1;
    }
    items
}

/// Lets the changes that undo a step go, unless these events have its name.
fn thin_named<C>(alloc: Global, item: &mut Item<C>, undo: &[Event], redo: &[Event])
where
    C: Drop,
    ensures { item.new ≡ thinned (names_of undo.now ++ names_of redo.now) item.old }
{
    if !is_live(undo, redo, item.name()) {
        item.forget(alloc);
    }
}

/// Whether each of these items is that of an own step.
pub fn are_own<C>(items: &[Item<C>]) -> bool
    ensures { result ≡ are_own items.now }
{
    for item in items {
        if item.name().is_none() {
            return false;
        }
    }
    true
}

/// The number of these items whose changes that undo them are kept.
pub fn inverses<C>(items: &[Item<C>], undo: &[Event], redo: &[Event]) -> u64
    ensures count { result ≡ inverses (names_of undo.now ++ names_of redo.now) items.now }
    ensures within { result ≤ length items.now }
{
    let mut count = 0;
    for item in items {
        if has_inverse(item, undo, redo) {
            count += 1;
        }
    }
    count
}

/// Whether the changes that undo this step are kept: it is live, or some of them are there still.
pub fn has_inverse<C>(item: &Item<C>, undo: &[Event], redo: &[Event]) -> bool
    ensures { result ≡ has_inverse (names_of undo.now ++ names_of redo.now) item.now }
{
    !item.inverse().is_empty() || is_live(undo, redo, item.name())
}
