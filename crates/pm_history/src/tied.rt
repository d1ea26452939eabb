//! What steps undo, once they were carried.
ghost use Rattle.std.specs.Prelude.{◌≡◌, true, Some};
ghost use Rattle.pm_history.specs.Rising.{Rise};
ghost use Rattle.pm_history.specs.Tied.{undoes_of, tied_as, all_tied};

use crate::item::Item;
use crate::rising::{place_among, rise};
use pm_change::Name;

/// Each item undoes what the old item of its name undoes. An item without an old one undoes no step. It takes no memory. Where the
/// old items' serials rise, it takes time for n of them as n log n does.
pub fn tie<C>(items: Vec<Item<C>>, old: &[Item<C>]) -> Vec<Item<C>>
    ensures { result.items ≡ all_tied old.now items.items }
{
    let mut items = items;
    let rise = rise(old);
    let count = items.len();
    let mut i = 0;
    while i < count {
        tie_one(&mut items[i], old, rise);
        i += 1;
    }
    items
}

/// From now on the item undoes what the old item of its name undoes.
fn tie_one<C>(item: &mut Item<C>, old: &[Item<C>], rise: bool)
    requires { rise ≡ true → Rise old.now }
    ensures { item.new ≡ tied_as old.now item.old }
{
    let undoes = undoes_of(item.name(), old, rise);
    item.tie(undoes);
}

/// What the step of this name undoes, as these items say.
fn undoes_of<C>(name: Option<Name>, items: &[Item<C>], rise: bool) -> Option<Name>
    requires { rise ≡ true → Rise items.now }
    ensures { result ≡ undoes_of name items.now }
{
    match name {
        Some(own) => undoes_named(own, items, rise),
        None => None,
    }
}

/// What the own step of this name undoes.
fn undoes_named<C>(name: Name, items: &[Item<C>], rise: bool) -> Option<Name>
    requires { rise ≡ true → Rise items.now }
    ensures { result ≡ undoes_of (Some name) items.now }
{
    match place_among(name, items, rise) {
        Some(place) => items[place].undoes(),
        None => None,
    }
}
