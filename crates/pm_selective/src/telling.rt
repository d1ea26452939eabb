//! Whether each later step lies apart from an event.
ghost use Rattle.std.specs.Prelude.{◌≡◌, ◌↔◌, ◌<◌, ◌≤◌, ◌+◌, ◌++◌, ◌^◌, [], true, length, IfOk, OnOk, drop, Some};
ghost use Rattle.pm_selective.specs.Apart.{reaches, moved_reaches};
ghost use Rattle.pm_selective.specs.Tests.{is_beyond, beyond_all, apart_from, is_splice_map, all_splices, apart_behind, are_named, from_name, tells, FitItems, HasRoomAll};
ghost use Rattle.pm_selective.specs.Told.{TellsApart};
ghost use Rattle.pm_history.specs.Items.{one_step};
ghost use Rattle.pm_history.specs.Tidy.{NamesDiffer};

use pm_change::Name;
use pm_history::Item;
use pm_map::{Side, Span, StepMap};
use std::alloc::{AllocError, Global};

/// From one position to another.
#[derive(Clone, Copy, Drop, Debug, PartialEq, Eq)]
pub struct Reach {
    pub from: u64,
    pub to: u64,
}

/// From where the range starts to where it ends.
fn reach_of(range: Span) -> Reach
    requires { range.start + range.old_size < 2 ^ 64 }
    ensures from { result.from ≡ range.start }
    ensures to { result.to ≡ range.start + range.old_size }
{
    Reach {
        from: range.start,
        to: range.start + range.old_size,
    }
}

/// Whether at least one token stands between the range and the stretch.
fn is_beyond(range: Span, reach: Reach) -> bool
    requires { range.start + range.old_size < 2 ^ 64 }
    ensures { result ≡ is_beyond range reach }
{
    range.start + range.old_size < reach.from || reach.to < range.start
}

fn beyond_all(range: Span, reaches: &[Reach]) -> bool
    requires { range.start + range.old_size < 2 ^ 64 }
    ensures { result ≡ beyond_all range reaches.now }
{
    for reach in reaches {
        if !is_beyond(range, *reach) {
            return false;
        }
    }
    true
}

/// Whether at least one token stands between each range of the map and each of the stretches.
fn apart_from(map: &StepMap, reaches: &[Reach]) -> bool
    ensures { result ≡ apart_from map.now reaches.now }
{
    map.ordered();
    map.few();
    match (map.span(0), map.span(1)) {
        (Some(first), Some(second)) => beyond_all(first, reaches) && beyond_all(second, reaches),
        (Some(first), None) => beyond_all(first, reaches),
        _ => true,
    }
}

/// Whether the map is that of a replace or of a replaceAround whose gap is not pinched.
fn is_splice_map(map: &StepMap) -> bool
    ensures { result ≡ is_splice_map map.now }
{
    map.ordered();
    map.few();
    match (map.span(0), map.span(1)) {
        (Some(first), Some(second)) => reach_of(first).to < second.start,
        (Some(_), None) => true,
        _ => false,
    }
}

/// Where the stretches go over the map: each start by `Before`, and each end by `After`.
fn moved_reaches(alloc: Global, map: &StepMap, found: &[Reach]) -> Result<Vec<Reach>, AllocError>
    requires { HasRoomAll map.now found.now }
    ensures { IfOk result (λ v. v.items ≡ moved_reaches map.now found.now) }
{
    let mut moved = Vec::new(alloc);
    for reach in found {
        let from = map.map(reach.from, Side::Before).pos;
        let to = map.map(reach.to, Side::After).pos;
        moved.push(Reach { from, to })?;
    }
    Ok(moved)
}

/// The map's ranges join the stretches.
fn add_ranges(map: &StepMap, found: &mut Vec<Reach>) -> Result<(), AllocError>
    ensures { OnOk result (found.new.items ≡ found.old.items ++ reaches map.now) }
{
    map.ordered();
    map.few();
    match (map.span(0), map.span(1)) {
        (Some(first), Some(second)) => {
            found.push(reach_of(first))?;
            found.push(reach_of(second))?;
        }
        (Some(first), None) => {
            found.push(reach_of(first))?;
        }
        _ => {}
    }
    Ok(())
}

/// Whether each of these is the item of a replace or of a replaceAround whose gap is not pinched.
fn all_splices<C>(items: &[Item<C>]) -> bool
    ensures { result ≡ all_splices items.now }
{
    for item in items {
        if !is_splice_map(&item.map()) {
            return false;
        }
    }
    true
}

/// Whether the first items have these names, in order.
fn are_named<C>(names: &[Name], items: &[Item<C>]) -> bool
    ensures { result ≡ are_named names.now items.now }
{
    if names.len() > items.len() {
        return false;
    }
    for i in 0..names.len() {
        if !is_step(names[i], items[i].name()) {
            return false;
        }
    }
    true
}

/// Whether this is the name.
fn is_step(name: Name, other: Option<Name>) -> bool
    ensures { result ≡ one_step (Some name) other }
{
    match other {
        Some(other) => name.client == other.client && name.serial == other.serial,
        None => false,
    }
}

/// The place of the first item of this name, or the number of items.
fn place_of<C>(name: Name, items: &[Item<C>]) -> usize
    ensures within { result ≤ length items.now }
    ensures place { drop result items.now ≡ from_name name items.now }
{
    let mut passed = 0;
    for item in items {
        if is_step(name, item.name()) {
            return passed;
        }
        passed += 1;
    }
    passed
}

/// Whether each item after the first `count` ones lies apart from the ranges of these.
fn apart_behind<C>(alloc: Global, count: usize, items: &[Item<C>]) -> Result<bool, AllocError>
    requires { FitItems items.now }
    ensures { IfOk result (λ b. b ≡ apart_behind count [] items.now) }
{
    let mut found = Vec::new(alloc);
    let mut left = count;
    for item in items {
        let map = item.map();
        if left == 0 {
            if !apart_from(&map, &found) {
                return Ok(false);
            }
            found = moved_reaches(alloc, &map, &found)?;
        } else {
            left -= 1;
            found = moved_reaches(alloc, &map, &found)?;
            add_ranges(&map.inverted(), &mut found)?;
        }
    }
    Ok(true)
}

/// Whether the items tell that the steps of these names stand in the timeline one after another, that there is at least one,
/// that each of them and each later step is a replace or a replaceAround whose gap is not pinched, and that each later step
/// lies apart from the event.
pub fn tells_apart<C>(alloc: Global, names: &[Name], items: &[Item<C>]) -> Result<bool, AllocError>
    requires fits { FitItems items.now }
    requires differ { NamesDiffer items.now }
    ensures { IfOk result (λ told. (told ≡ true) ↔ TellsApart names.now items.now) }
{
    tells(alloc, names, items)
}

fn tells<C>(alloc: Global, names: &[Name], items: &[Item<C>]) -> Result<bool, AllocError>
    requires { FitItems items.now }
    ensures { IfOk result (λ b. b ≡ tells names.now items.now) }
{
    if names.len() == 0 {
        return Ok(false);
    }
    let start = place_of(names[0], items);
    let since = &items[start..];
    if !are_named(names, since) || !all_splices(since) {
        return Ok(false);
    }
    apart_behind(alloc, names.len(), since)
}
