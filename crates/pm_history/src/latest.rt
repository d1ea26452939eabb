//! From where on steps stand, looked for from the last item on.
ghost use Rattle.std.specs.Prelude.{◌≡◌, ◌≤◌, ◌<◌, ◌∷◌, [], length};
ghost use Rattle.pm_history.specs.Starts.{start_of};
ghost use Rattle.pm_history.specs.Tidy.{NamesDiffer};

use crate::item::{Item, one_step};
use pm_change::Name;

/// The place of the first item that is one of these steps, or the number of items, where the items' names differ. Where each step
/// is there, it looks at few items, or at none before that one.
pub fn earliest<C>(names: &[Name], items: &[Item<C>]) -> usize
    ensures start { NamesDiffer items.now → result ≡ start_of names.now items.now }
    ensures within { result ≤ length items.now }
{
    let mut start = items.len();
    for name in names {
        start = start.min(latest(*name, items));
    }
    start
}

/// The place of the last item of this name, or the number of items. Where its serial leads there, no other item need be passed.
fn latest<C>(name: Name, items: &[Item<C>]) -> usize
    ensures place { NamesDiffer items.now → result ≡ start_of (name ∷ []) items.now }
    ensures within { result ≤ length items.now }
{
    if items.is_empty() {
        return 0;
    }
    let place = guess(name, items);
    if one_step(Some(name), items[place].name()) {
        return place;
    }
    looked_for(name, items)
}

/// The same, looked for from the last item on.
fn looked_for<C>(name: Name, items: &[Item<C>]) -> usize
    ensures place { NamesDiffer items.now → result ≡ start_of (name ∷ []) items.now }
    ensures within { result ≤ length items.now }
{
    let mut i = items.len();
    while i > 0 {
        i -= 1;
        if one_step(Some(name), items[i].name()) {
            return i;
        }
    }
    items.len()
}

/// How many items are looked at where the serials lead, before each one is.
const MOST_GUESSES: usize = 64;

/// Where the item of this name may stand. A client's steps stand in the order of their serials, of which few are missing, so an
/// own step tells how far off another is.
fn guess<C>(name: Name, items: &[Item<C>]) -> usize
    requires { 0 < length items.now }
    ensures { result < length items.now }
{
    let mut place = items.len() - 1;
    let mut left = MOST_GUESSES;
    while left > 0 {
        let found = items[place].name();
        if one_step(Some(name), found) {
            return place;
        }
        place = next_guess(name, found, place, items.len() - 1);
        left -= 1;
    }
    place
}

/// The place to look at next, where this one has `found`. Another's step tells nothing: then it is the one before.
fn next_guess(name: Name, found: Option<Name>, place: usize, last: usize) -> usize
    requires { place ≤ last }
    ensures { result ≤ last }
{
    match found {
        Some(own) => {
            let back = own.serial.saturating_sub(name.serial) as usize;
            let on = name.serial.saturating_sub(own.serial) as usize;
            place.saturating_sub(back).saturating_add(on).min(last)
        }
        None => place.saturating_sub(1),
    }
}
