//! What a rebase does to the items and the events.
ghost use Rattle.std.specs.Prelude.{◌≡◌, true, IfOk};
ghost use Rattle.pm_history.specs.Histories.{holds, is_dropped, still_named, without_dropped, foreign_items};
ghost use Rattle.pm_history.specs.Drops.{any_dropped, is_lost};
ghost use Rattle.pm_history.specs.Rising.{Rise};

use crate::branch::{Branch, Event};
use crate::item::Item;
use crate::rising::{place_among, rise};
use pm_change::Name;
use pm_list::Listed;
use pm_map::StepMap;
use std::alloc::{AllocError, Global};

/// Whether one of these items has this name.
fn holds<C>(name: Name, items: &[Item<C>], rise: bool) -> bool
    requires { rise ≡ true → Rise items.now }
    ensures { result ≡ holds name items.now }
{
    place_among(name, items, rise).is_some()
}

/// Whether one of the own steps gone is not kept. Where the serials of those kept rise, it takes time for n steps as n log n does.
pub fn any_dropped<C>(gone: &[Item<C>], kept: &[Item<C>]) -> bool
    ensures { result ≡ any_dropped gone.now kept.now }
{
    let rise = rise(kept);
    for item in gone {
        if is_lost(item.name(), kept, rise) {
            return true;
        }
    }
    false
}

fn is_lost<C>(name: Option<Name>, kept: &[Item<C>], rise: bool) -> bool
    requires { rise ≡ true → Rise kept.now }
    ensures { result ≡ is_lost name kept.now }
{
    match name {
        Some(n) => !holds(n, kept, rise),
        None => false,
    }
}

/// The events without the steps that are gone and not kept. Where the serials of these rise, a name costs the logarithm of their
/// number.
pub fn without_dropped<C>(
    alloc: Global,
    events: &[Event],
    gone: &[Item<C>],
    kept: &[Item<C>],
) -> Result<Branch, AllocError>
    ensures { IfOk result (λ b. b ≡ without_dropped gone.now kept.now events.now) }
{
    let rise = rise(gone) && rise(kept);
    let mut left = Vec::new(alloc);
    for event in events {
        left.push(Event {
            number: event.number,
            names: still_named(alloc, event.names.as_slice(), gone, kept, rise)?,
        })?;
    }
    Ok(Branch::from_vec(left))
}

fn still_named<C>(
    alloc: Global,
    names: &[Name],
    gone: &[Item<C>],
    kept: &[Item<C>],
    rise: bool,
) -> Result<Listed<Name>, AllocError>
    requires gone { rise ≡ true → Rise gone.now }
    requires kept { rise ≡ true → Rise kept.now }
    ensures { IfOk result (λ ns. ns ≡ still_named gone.now kept.now names.now) }
{
    let mut left = Listed::new(alloc);
    for name in names {
        if !is_dropped(*name, gone, kept, rise) {
            left.push(*name)?;
        }
    }
    Ok(left)
}

fn is_dropped<C>(name: Name, gone: &[Item<C>], kept: &[Item<C>], rise: bool) -> bool
    requires gone { rise ≡ true → Rise gone.now }
    requires kept { rise ≡ true → Rise kept.now }
    ensures { result ≡ is_dropped gone.now kept.now name }
{
    holds(name, gone, rise) && !holds(name, kept, rise)
}

/// The items of foreign steps with these maps.
pub fn foreign_items<C>(alloc: Global, maps: &[StepMap]) -> Result<Vec<Item<C>>, AllocError>
where
    C: Drop,
    ensures { IfOk result (λ v. v.items ≡ foreign_items maps.now) }
{
    let mut items = Vec::new(alloc);
    for map in maps {
        items.push(Item::foreign(alloc, map.copy())?)?;
    }
    Ok(items)
}
