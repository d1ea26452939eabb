//! Whether later entries lie apart from those that are taken back.
ghost use Rattle.std.specs.Prelude.{◌≡◌, ◌↔◌, ◌++◌, true, IfOk, OnOk, All};
ghost use Rattle.pm_authority.specs.Runs.{changes_of};
ghost use Rattle.pm_client.specs.Rebasables.{NamedHasMap};
ghost use Rattle.pm_revert.specs.Items.{names_from, own_items, other_items};
ghost use Rattle.pm_revert.specs.Reverts.{LieApartFrom, MayTell};

use pm_apply::DocChange;
use pm_authority::{Name, Named};
use pm_change::Change;
use pm_history::Item;
use pm_list::Listed;
use pm_selective::tells_apart;
use std::alloc::{AllocError, Global};

/// Items of entries, and the names that they are given here: client 0, and serials from 0 on.
#[derive(Drop)]
struct Told<C> {
    names: Vec<Name>,
    items: Vec<Item<C>>,
}

/// Whether the later entries lie apart from these: there is at least one of these, each of them all is a replace or a replaceAround
/// whose gap is not pinched, and at least one token stands between the ranges of each later one and those of these. This reads the
/// maps of the entries, and nothing else. They must apply one after another.
pub fn lie_apart(
    alloc: Global,
    entries: &[Named<DocChange>],
    later: &[Named<DocChange>],
) -> Result<bool, AllocError>
    requires { MayTell entries.now later.now }
    ensures { IfOk result (λ told. (told ≡ true) ↔ LieApartFrom (changes_of entries.now) (changes_of later.now)) }
{
    let mut told = told_of(alloc, entries)?;
    add_others(alloc, &mut told.items, later)?;
    tells_apart(alloc, told.names.as_slice(), told.items.as_slice())
}

/// The items of these entries, as those of own steps, and their names.
fn told_of<C: Change>(alloc: Global, entries: &[Named<C>]) -> Result<Told<C>, AllocError>
    requires { All (NamedHasMap C.means) entries.now }
    ensures names { IfOk result (λ t. t.names.items ≡ names_from 0 entries.now) }
    ensures items { IfOk result (λ t. t.items.items ≡ own_items C.means 0 entries.now) }
{
    let names = Vec::with_capacity(alloc, entries.len())?;
    let items = Vec::with_capacity(alloc, entries.len())?;
    let mut told = Told { names, items };
    let mut serial = 0;
    for entry in entries {
        let name = Name { client: 0, serial };
        let map = entry.change.step_map();
        told.names.push(name)?;
        told.items
            .push(Item::own(alloc, name, map, Listed::new(alloc), None)?)?;
        serial += 1;
    }
    Ok(told)
}

/// The items of these entries, as those of others' steps, after these items.
fn add_others<C: Change>(
    alloc: Global,
    items: &mut Vec<Item<C>>,
    entries: &[Named<C>],
) -> Result<(), AllocError>
    requires { All (NamedHasMap C.means) entries.now }
    ensures { OnOk result (items.new.items ≡ items.old.items ++ other_items C.means entries.now) }
{
    for entry in entries {
        let item = Item::foreign(alloc, entry.change.step_map())?;
        items.push(item)?;
    }
    Ok(())
}
