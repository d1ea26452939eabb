//! What takes steps back.
ghost use Rattle.std.specs.Prelude.{◌≡◌, reverse, IfOk};
ghost use Rattle.pm_change.specs.Changes.{fold};
ghost use Rattle.pm_authority.specs.Runs.{changes_of, AllApply};
ghost use Rattle.pm_remote.specs.Backs.{joined, sizes_of, undos, backs, IsBack};

use crate::received::Back;
use pm_authority::Named;
use pm_change::{Change, Failed};
use pm_list::Listed;
use std::alloc::{AllocError, Global};

/// The changes that take these steps back, which lead from `before` to `doc`, the last one's first. None exactly where these
/// do not all apply to `doc`, one after another.
pub fn take_back<C: Change>(
    alloc: Global,
    rules: &C::Rules,
    before: &C::Doc,
    steps: &[Named<C>],
    doc: &C::Doc,
) -> Result<Option<Back<C>>, AllocError>
    requires good { C.means.is_good rules.now before.now }
    requires leads { AllApply C.means rules.now before.now steps.now doc.now }
    ensures { IfOk result (IsBack C.means rules.now doc.now (backs C.means rules.now before.now (changes_of steps.now))) }
{
    let back = join_back(alloc, undo_each(alloc, rules, before, steps)?)?;
    match apply_changes(alloc, rules, doc, back.steps.as_slice())? {
        Some(_) => Ok(Some(back)),
        None => Ok(None),
    }
}

/// The changes that undo each of these steps, in the order of the steps.
fn undo_each<C: Change>(
    alloc: Global,
    rules: &C::Rules,
    before: &C::Doc,
    steps: &[Named<C>],
) -> Result<Vec<Listed<C>>, AllocError>
    requires good { C.means.is_good rules.now before.now }
    requires applies { ((end : C.Doc) × AllApply C.means rules.now before.now steps.now end) }
    ensures { IfOk result (λ v. v.items ≡ undos C.means rules.now before.now (changes_of steps.now)) }
{
    let mut so_far = C::copy_doc(alloc, before)?;
    let mut all = Vec::new(alloc);
    for step in steps {
        let undo = step.change.inverse(alloc, rules, &so_far)?;
        all.push(Listed::from_vec(undo))?;
        so_far = match step.change.apply(alloc, rules, &so_far) {
            Ok(next) => next,
            Err(Failed::Reason(_)) => unreachable!(),
            Err(Failed::NoMemory) => return Err(AllocError),
        };
    }
    Ok(all)
}

/// The changes that undo steps, the last step's first, where these lists undo each.
fn join_back<C: Change>(alloc: Global, undos: Vec<Listed<C>>) -> Result<Back<C>, AllocError>
    ensures steps { IfOk result (λ b. b.steps.items ≡ joined (reverse undos.items)) }
    ensures sizes { IfOk result (λ b. b.sizes.items ≡ sizes_of (reverse undos.items)) }
{
    let mut undos = undos;
    undos.reverse();
    let mut back = Back {
        steps: Vec::new(alloc),
        sizes: Vec::with_capacity(alloc, undos.len())?,
    };
    for undo in undos {
        back.sizes.push(undo.len())?;
        back.steps.append(&mut undo.into_vec())?;
    }
    Ok(back)
}

/// The document after these changes, one after another; None where one of them does not apply.
fn apply_changes<C: Change>(
    alloc: Global,
    rules: &C::Rules,
    doc: &C::Doc,
    changes: &[C],
) -> Result<Option<C::Doc>, AllocError>
    requires { C.means.is_good rules.now doc.now }
    ensures { IfOk result (λ o. o ≡ fold C.means rules.now doc.now changes.now) }
{
    let mut so_far = C::copy_doc(alloc, doc)?;
    for change in changes {
        so_far = match change.apply(alloc, rules, &so_far) {
            Ok(next) => next,
            Err(Failed::Reason(_)) => return Ok(None),
            Err(Failed::NoMemory) => return Err(AllocError),
        };
    }
    Ok(Some(so_far))
}
