//! Undoing the steps of an event.
ghost use Rattle.std.specs.Prelude.{◌≡◌, ◌<◌, ◌≤◌, ◌++◌, ℕ, length, IfOk, IfSome, Ok, Some};
ghost use Rattle.pm_map.specs.Fits.{FitBetween};
ghost use Rattle.pm_history.specs.Items.{one_step};
ghost use Rattle.pm_history.specs.Starts.{start_of, is_named};
ghost use Rattle.pm_history.specs.Made.{IsMade};
ghost use Rattle.pm_history.specs.Pairs.{paired};
ghost use Rattle.pm_history.specs.Shows.{ShowsTo};
ghost use Rattle.pm_history.specs.Undos.{undo_steps, undo_event, undo_found, then_made, find, tried};
ghost use Rattle.pm_history.specs.Restores.{RestoresAll, IsOfWhole};
ghost use Rattle.pm_history.specs.Tries.{MayUndo, put_one, item_from};

use crate::item::{Item, one_step};
use crate::later::Later;
use pm_change::{Change, Failed, Name};
use pm_list::Listed;
use std::alloc::{AllocError, Global};

/// What an undo has made. `doc`: the document after it. `serial`: the next serial. `made`: the changes made, in order, and
/// `items`: their items.
#[derive(Drop)]
pub struct Undone<D, C> {
    pub doc: D,
    pub serial: u64,
    pub made: Listed<C>,
    pub items: Listed<Item<C>>,
}

/// What `client` makes to undo the steps of these names, from the last to the first, on the document after the timeline
/// `items`. Each change that undoes a step is carried over the maps of all later items, those made by this call among them;
/// one that is lost or does not apply is left out. The changes made are named by `client` and serials from `serial` on. The
/// items must stand for steps that lead to `doc`. Where nothing has changed since, the document is the one before the first
/// of these steps. A serial past 2^64 counts as running out of memory.
pub fn undo_event<C: Change>(
    alloc: Global,
    rules: &C::Rules,
    client: u32,
    names: &[Name],
    items: &[Item<C>],
    doc: C::Doc,
    serial: u64,
) -> Result<Undone<C::Doc, C>, AllocError>
    requires { ShowsTo C.means rules.now items.now doc }
    ensures made { IfOk result (λ w. w ≡ undo_event C.means rules.now client names.now items.now doc serial) }
    ensures steps { IfOk result (IsMade C.means rules.now client doc serial) }
    ensures shows { IfOk result (λ w. ShowsTo C.means rules.now (items.now ++ w.items) w.doc) }
    ensures whole { IfOk result (IsOfWhole C.means rules.now client names.now items.now doc serial) }
    ensures restores { IfOk result (RestoresAll C.means rules.now names.now items.now doc) }
{
    let start = start_of(names, items);
    undo_from(alloc, rules, client, names, &items[start..], doc, serial)
}

/// The place of the first item that is one of these steps, or the number of items.
fn start_of<C>(names: &[Name], items: &[Item<C>]) -> usize
    ensures start { result ≡ start_of names.now items.now }
    ensures within { result ≤ length items.now }
{
    let mut passed = 0;
    for item in items {
        if is_named(names, item.name()) {
            return passed;
        }
        passed += 1;
    }
    passed
}

/// Whether this is one of these names.
pub fn is_named(names: &[Name], name: Option<Name>) -> bool
    ensures { result ≡ is_named names.now name }
{
    for one in names {
        if one_step(Some(*one), name) {
            return true;
        }
    }
    false
}

/// The steps of these names, from the last to the first.
fn undo_from<C: Change>(
    alloc: Global,
    rules: &C::Rules,
    client: u32,
    names: &[Name],
    items: &[Item<C>],
    doc: C::Doc,
    serial: u64,
) -> Result<Undone<C::Doc, C>, AllocError>
    requires { ShowsTo C.means rules.now items.now doc }
    ensures { IfOk result (λ w. w ≡ undo_event C.means rules.now client names.now items.now doc serial) }
{
    let mut undone = Undone {
        doc,
        serial,
        made: Listed::new(alloc),
        items: Listed::new(alloc),
    };
    let mut i = names.len();
    while i > 0 {
        i -= 1;
        undone = undo_named(alloc, rules, client, names[i], items, undone)?;
    }
    Ok(undone)
}

/// The step of this name, where it stands in the timeline.
fn undo_named<C: Change>(
    alloc: Global,
    rules: &C::Rules,
    client: u32,
    name: Name,
    items: &[Item<C>],
    undone: Undone<C::Doc, C>,
) -> Result<Undone<C::Doc, C>, AllocError>
    requires { ShowsTo C.means rules.now (items.now ++ undone.items) undone.doc }
    ensures { IfOk result (λ w. w ≡ then_made undone (undo_found C.means rules.now client name (find name items.now) undone.items undone.doc undone.serial)) }
{
    let Some(k) = place_of(name, items) else {
        return Ok(undone);
    };
    let steps = items[k].inverse();
    undo_steps(alloc, rules, client, name, steps, &items[k + 1..], undone)
}

/// The place of the item of this name.
pub fn place_of<C>(name: Name, items: &[Item<C>]) -> Option<usize>
    ensures found { find name items.now ≡ item_from items.now result }
    ensures within { IfSome result (λ k. k < length items.now) }
{
    let mut passed = 0;
    for item in items {
        if one_step(Some(name), item.name()) {
            return Some(passed);
        }
        passed += 1;
    }
    None
}

/// Each of these changes, which undo the step right before the later items, in order.
fn undo_steps<C: Change>(
    alloc: Global,
    rules: &C::Rules,
    client: u32,
    name: Name,
    steps: &[C],
    later: &[Item<C>],
    undone: Undone<C::Doc, C>,
) -> Result<Undone<C::Doc, C>, AllocError>
    requires { MayUndo C.means rules.now steps.now (later.now ++ undone.items) undone.doc }
    ensures { IfOk result (λ w. w ≡ then_made undone (undo_steps C.means rules.now client name steps.now (later.now ++ undone.items) undone.doc undone.serial)) }
{
    let mut undone = undone;
    for step in steps {
        let carried = carried(alloc, step, later, undone.items.as_slice())?;
        undone = make_one(alloc, rules, client, name, carried, undone)?;
    }
    Ok(undone)
}

/// A change carried over the later items and those made so far.
fn carried<C: Change>(
    alloc: Global,
    step: &C,
    later: &[Item<C>],
    made: &[Item<C>],
) -> Result<Option<C>, AllocError>
    requires { ((n : ℕ) × ((k : ℕ) × (FitBetween (paired (later.now ++ made.now)) n k × C.means.is_within step.now n))) }
    ensures { IfOk result (λ o. o ≡ C.means.carry step.now (paired (later.now ++ made.now))) }
{
    let positions = Later::of(alloc, later, made)?;
    step.carry(alloc, &positions)
}

/// A carried change, which may be lost or not apply.
fn make_one<C: Change>(
    alloc: Global,
    rules: &C::Rules,
    client: u32,
    name: Name,
    carried: Option<C>,
    undone: Undone<C::Doc, C>,
) -> Result<Undone<C::Doc, C>, AllocError>
    requires good { C.means.is_good rules.now undone.doc }
    ensures { IfOk result (λ w. w ≡ put_one C.means rules.now client (tried C.means rules.now client carried undone.doc) name undone) }
{
    let Some(change) = carried else {
        return Ok(undone);
    };
    match change.apply(alloc, rules, &undone.doc) {
        Ok(next) => made_one(alloc, rules, client, name, change, next, undone),
        Err(Failed::Reason(_)) => Ok(undone),
        Err(Failed::NoMemory) => Err(AllocError),
    }
}

/// A change that was made, and the document after it.
fn made_one<C: Change>(
    alloc: Global,
    rules: &C::Rules,
    client: u32,
    name: Name,
    change: C,
    next: C::Doc,
    undone: Undone<C::Doc, C>,
) -> Result<Undone<C::Doc, C>, AllocError>
    requires good { C.means.is_good rules.now undone.doc }
    requires applies { C.means.outcome rules.now change undone.doc ≡ Ok next }
    ensures { IfOk result (λ w. w ≡ put_one C.means rules.now client (Some (change, next)) name undone) }
{
    let Undone {
        doc,
        serial,
        mut made,
        mut items,
    } = undone;
    let Some(after) = serial.checked_add(1) else {
        return Err(AllocError);
    };
    let inverse = Listed::from_vec(change.inverse(alloc, rules, &doc)?);
    let own = Name { client, serial };
    let item = Item::own(alloc, own, change.step_map(), inverse, Some(name))?;
    items.push(item)?;
    made.push(change)?;
    Ok(Undone {
        doc: next,
        serial: after,
        made,
        items,
    })
}
