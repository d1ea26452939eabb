//! Lists that stand in answers.
ghost use Rattle.std.specs.Prelude.{◌≡◌, ◌+◌, ◌≤◌, ◌^◌, ◌++◌, IfOk, OnOk};
ghost use Rattle.pm_authority.specs.Runs.{changes_of};
ghost use Rattle.pm_told.specs.Showing.{positions_of, serials_on};

use pm_apply::DocChange;
use pm_authority::Named;
use pm_change::Change;
use pm_client::Cursor;
use std::alloc::{AllocError, Global};

/// The steps without their names.
pub fn changes_of(alloc: Global, steps: &[Named<DocChange>]) -> Result<Vec<DocChange>, AllocError>
    ensures { IfOk result (λ v. v.items ≡ changes_of steps.now) }
{
    let mut changes = Vec::new(alloc);
    push_changes_of(alloc, &mut changes, steps)?;
    Ok(changes)
}

/// Appends the steps without their names.
pub fn push_changes_of(
    alloc: Global,
    changes: &mut Vec<DocChange>,
    steps: &[Named<DocChange>],
) -> Result<(), AllocError>
    ensures { OnOk result (changes.new.items ≡ changes.old.items ++ changes_of steps.now) }
{
    for step in steps {
        changes.push(step.change.copy(alloc)?)?;
    }
    Ok(())
}

/// Appends copies of the steps.
pub fn push_copies(
    alloc: Global,
    changes: &mut Vec<DocChange>,
    steps: &[DocChange],
) -> Result<(), AllocError>
    ensures { OnOk result (changes.new.items ≡ changes.old.items ++ steps.now) }
{
    for step in steps {
        changes.push(step.copy(alloc)?)?;
    }
    Ok(())
}

/// The positions of the cursors.
pub fn positions(alloc: Global, cursors: &[Cursor]) -> Result<Vec<u64>, AllocError>
    ensures { IfOk result (λ v. v.items ≡ positions_of cursors.now) }
{
    let mut all = Vec::new(alloc);
    for cursor in cursors {
        all.push(cursor.pos)?;
    }
    Ok(all)
}

/// So many serials, the first of which is this one.
pub fn serials_from(alloc: Global, first: u64, count: usize) -> Result<Vec<u64>, AllocError>
    requires { first + count ≤ 2 ^ 64 }
    ensures { IfOk result (λ v. v.items ≡ serials_on first count) }
{
    let mut all = Vec::new(alloc);
    for i in 0..count {
        all.push(first + i as u64)?;
    }
    Ok(all)
}
