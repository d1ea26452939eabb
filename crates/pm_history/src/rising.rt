//! Items found by their names, at once where their serials rise.
ghost use Rattle.std.specs.Prelude.{◌≡◌, ℕ, ◌<◌, ◌≤◌, ◌+◌, ◌↔◌, length, slice_index_or, true, IsTrue, IfSome};
ghost use Rattle.pm_history.specs.declared.item.Item.{Item};
ghost use Rattle.pm_history.specs.Rising.{Rise, rank};
ghost use Rattle.pm_history.specs.Tries.{item_from};
ghost use Rattle.pm_history.specs.Undos.{find};

use crate::item::{Item, one_step};
use crate::undoing::place_of;
use pm_change::Name;

/// The place of the item of this name. `rise`: it is known that the items' serials rise. Then as many items are looked at as their
/// number has binary digits, and else all before that one.
pub fn place_among<C>(name: Name, items: &[Item<C>], rise: bool) -> Option<usize>
    requires { rise ≡ true → Rise items.now }
    ensures found { find name items.now ≡ item_from items.now result }
    ensures within { IfSome result (λ k. k < length items.now) }
{
    if rise {
        searched(name, items)
    } else {
        place_of(name, items)
    }
}

/// Whether the items' serials rise, as those of pending steps do. Each item is looked at once.
pub fn rise<C>(items: &[Item<C>]) -> bool
    ensures { result ≡ true → Rise items.now }
{
    let mut i = items.len();
    while i > 1 {
        i -= 1;
        let before = i - 1;
        if !rises_to(items[before].name(), items[i].name()) {
            return false;
        }
    }
    true
}

/// Whether the serial rises from one step to the next. Only before the first own step one of another client may stand.
fn rises_to(first: Option<Name>, next: Option<Name>) -> bool
    ensures { IsTrue result ↔ (rank first < rank next) }
{
    match next {
        Some(own) => is_before(first, own.serial),
        None => false,
    }
}

/// Whether this is no name, or one with a smaller serial.
fn is_before(name: Option<Name>, serial: u64) -> bool
    ensures { IsTrue result ↔ (rank name < serial + 1) }
{
    match name {
        Some(own) => own.serial < serial,
        None => true,
    }
}

/// The place of the item of this name, by halves.
fn searched<C>(name: Name, items: &[Item<C>]) -> Option<usize>
    requires { Rise items.now }
    ensures found { find name items.now ≡ item_from items.now result }
    ensures within { IfSome result (λ k. k < length items.now) }
{
    let place = before(name.serial, items);
    if place < items.len() && one_step(Some(name), items[place].name()) {
        return Some(place);
    }
    None
}

/// How many of the items come before this serial.
fn before<C>(serial: u64, items: &[Item<C>]) -> usize
    requires { Rise items.now }
    ensures within { result ≤ length items.now }
    ensures below { (k : ℕ) (d : Item C) → k < result → rank (slice_index_or items.now k d).name < serial + 1 }
    ensures above { (k : ℕ) (d : Item C) → result ≤ k → k < length items.now → serial + 1 ≤ rank (slice_index_or items.now k d).name }
{
    let mut low = 0;
    let mut high = items.len();
    while low < high {
        let middle = low + (high - low) / 2;
        if is_before(items[middle].name(), serial) {
            low = middle + 1;
        } else {
            high = middle;
        }
    }
    low
}
