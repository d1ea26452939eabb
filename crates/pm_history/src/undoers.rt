//! The items that were made to undo steps.
ghost use Rattle.std.specs.Prelude.{◌≡◌, ◌<◌, ◌%◌, ◌∷◌, ◌++◌, [], List, length, None, slice_index_or, slice_set, Some, true, false, IfOk, OnOk};
ghost use Rattle.pm_history.specs.declared.item.Item.{Item};
ghost use Rattle.std.specs.List.{AllByRecursion as Each};
ghost use Rattle.pm_history.specs.Laters.{is_told, Tells};
ghost use Rattle.pm_history.specs.Undoers.{IsTableOf};

use crate::item::Item;
use std::alloc::{AllocError, Global};

/// The items of a list that were made to undo steps, found by the serials of these steps. An item is counted by the number of
/// items after it, so that more can come at the front. `nearest`: for each remainder that a serial can leave the first item.
/// `next`: for each item, the last one first, the next after it whose serial leaves the same remainder.
#[derive(Drop)]
pub struct Undoers {
    pub nearest: Vec<Option<usize>>,
    pub next: Vec<Option<usize>>,
}

impl Undoers {
    /// The table of `items` and, after them, `made`. Steps follow one another by their serials, so that with as many
    /// remainders as items few share one.
    pub fn of<C>(alloc: Global, items: &[Item<C>], made: &[Item<C>]) -> Result<Undoers, AllocError>
        requires { 0 < length (items.now ++ made.now) }
        ensures { IfOk result (λ u. IsTableOf u (items.now ++ made.now)) }
    {
        let count = items.len() + made.len();
        let mut undoers = Undoers {
            nearest: vec![in alloc; None; count]?,
            next: Vec::with_capacity(alloc, count)?,
        };
        undoers.put_all(made)?;
        undoers.put_all(items)?;
        Ok(undoers)
    }

    /// Prepends items, the last one first.
    fn put_all<C>(&mut self, items: &[Item<C>]) -> Result<(), AllocError>
        requires { 0 < length self.old.nearest.items }
        ensures size { OnOk result (length self.new.nearest.items ≡ length self.old.nearest.items) }
        ensures table { OnOk result ((is : List (Item C)) → IsTableOf self.old is → IsTableOf self.new (items.now ++ is)) }
    {
        let mut i = items.len();
        while i > 0 {
            i -= 1;
            self.put(&items[i])?;
        }
        Ok(())
    }

    /// Prepends an item.
    fn put<C>(&mut self, item: &Item<C>) -> Result<(), AllocError>
        requires { 0 < length self.old.nearest.items }
        ensures size { OnOk result (length self.new.nearest.items ≡ length self.old.nearest.items) }
        ensures table { OnOk result ((is : List (Item C)) → IsTableOf self.old is → IsTableOf self.new (item.now ∷ is)) }
    {
        let count = self.next.len();
        let next = match item.undoes() {
            Some(name) => put_nearest(&mut self.nearest, name.serial, count),
            None => None,
        };
        self.next.push(next)?;
        Ok(())
    }

    /// The first item for this serial.
    pub fn nearest_to(&self, serial: u64) -> Option<usize>
        requires { 0 < length self.now.nearest.items }
        ensures { result ≡ slice_index_or self.now.nearest.items (serial % length self.now.nearest.items) None }
    {
        self.nearest[remainder(serial, self.nearest.len())]
    }
}

/// Makes this the first item for the serial, and tells which one was.
fn put_nearest(nearest: &mut Vec<Option<usize>>, serial: u64, left: usize) -> Option<usize>
    requires { 0 < length nearest.old.items }
    ensures was { result ≡ slice_index_or nearest.old.items (serial % length nearest.old.items) None }
    ensures now { nearest.new.items ≡ slice_set nearest.old.items (serial % length nearest.old.items) (Some left) }
{
    let place = remainder(serial, nearest.len());
    let was = nearest[place];
    nearest[place] = Some(left);
    was
}

/// What a serial leaves when it is divided by this count.
pub fn remainder(serial: u64, count: usize) -> usize
    requires { 0 < count }
    ensures { result ≡ serial % count }
{
    (serial % count as u64) as usize
}

/// The table of these items, where it is made for one of them: to tell of `all` items where one undoes a step, and to tell
/// positions where one brings tokens back.
pub fn table_of<C>(
    alloc: Global,
    items: &[Item<C>],
    made: &[Item<C>],
    all: bool,
) -> Result<Option<Undoers>, AllocError>
    ensures { IfOk result (λ o. Tells all o (items.now ++ made.now)) }
{
    if none_told(made, all) && none_told(items, all) {
        return Ok(None);
    }
    Ok(Some(Undoers::of(alloc, items, made)?))
}

/// Whether a table is made for none of these items. The last one is looked at first, since undos come last.
fn none_told<C>(items: &[Item<C>], all: bool) -> bool
    ensures none { result ≡ true → Each (λ i. is_told all i ≡ false) items.now }
    ensures some { result ≡ false → 0 < length items.now }
{
    let mut i = items.len();
    while i > 0 {
        i -= 1;
        if is_told(&items[i], all) {
            return false;
        }
    }
    true
}

/// Whether a table is made for this item. What brings tokens back is told without a look at what the item keeps.
fn is_told<C>(item: &Item<C>, all: bool) -> bool
    ensures { result ≡ is_told all item.now }
{
    if all {
        item.undoes().is_some()
    } else {
        item.brings_back()
    }
}
