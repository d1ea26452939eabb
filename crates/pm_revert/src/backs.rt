//! The changes that undo entries.
ghost use Rattle.std.specs.Prelude.{◌≡◌, ◌++◌, IfOk, OnOk, Ok, reverse};
ghost use Rattle.pm_authority.specs.Runs.{changes_of};
ghost use Rattle.pm_revert.specs.Backs.{backs, backs_at, MayGoBack};

use pm_authority::Named;
use pm_change::{Change, Failed};
use std::alloc::{AllocError, Global};

/// A change that undoes an entry, or a part of that, and the place of the entry among those that are taken back.
#[derive(Drop)]
pub struct Back<C> {
    pub index: u64,
    pub change: C,
}

/// The changes that undo these entries, from the last entry to the first, to be made one after another on the document after
/// them. The entries must apply one after another to `before`.
pub fn backs_of<C: Change>(
    alloc: Global,
    rules: &C::Rules,
    before: &C::Doc,
    entries: &[Named<C>],
) -> Result<Vec<Back<C>>, AllocError>
    requires { MayGoBack C.means rules.now before.now (changes_of entries.now) }
    ensures { IfOk result (λ v. v.items ≡ backs C.means rules.now before.now (changes_of entries.now)) }
{
    let mut found = Vec::new(alloc);
    let mut so_far = C::copy_doc(alloc, before)?;
    let mut index = 0;
    for entry in entries {
        let changes = entry.change.inverse(alloc, rules, &so_far)?;
        add_turned(&mut found, index, changes)?;
        let next = after(alloc, rules, &entry.change, &so_far)?;
        so_far = next;
        index += 1;
    }
    found.reverse();
    Ok(found)
}

/// The changes that undo the entry at this place, from the last to the first.
fn add_turned<C: Drop>(
    found: &mut Vec<Back<C>>,
    index: u64,
    changes: Vec<C>,
) -> Result<(), AllocError>
    ensures { OnOk result (reverse found.new.items ≡ backs_at index changes.items ++ reverse found.old.items) }
{
    let mut left = changes;
    while let Some(change) = left.pop() {
        found.push(Back { index, change })?;
    }
    Ok(())
}

/// The document after a change that applies.
fn after<C: Change>(
    alloc: Global,
    rules: &C::Rules,
    change: &C,
    doc: &C::Doc,
) -> Result<C::Doc, AllocError>
    requires good { C.means.is_good rules.now doc.now }
    requires applies { ((next : C.Doc) × (C.means.outcome rules.now change.now doc.now ≡ Ok next)) }
    ensures { IfOk result (λ next. C.means.outcome rules.now change.now doc.now ≡ Ok next) }
{
    match change.apply(alloc, rules, doc) {
        Ok(next) => Ok(next),
        Err(Failed::Reason(_)) => unreachable!(),
        Err(Failed::NoMemory) => Err(AllocError),
    }
}
