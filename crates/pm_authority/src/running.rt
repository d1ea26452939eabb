//! Steps one after another.
ghost use Rattle.pm_change.specs.Failing.{Answers};
ghost use Rattle.pm_authority.specs.Runs.{run};

use crate::named::Named;
use pm_change::{Change, Failed};
use std::alloc::Global;

/// The first step that does not apply: its place, counted from 0, and the reason.
#[derive(Drop, Debug)]
pub struct Refusal<R> {
    pub index: u64,
    pub reason: R,
}

/// The document after these steps, one after another. `Reason` comes exactly where one of them does not apply, and names
/// the first. The document lent must be good, and stays as it is.
pub fn apply_all<C: Change>(
    alloc: Global,
    rules: &C::Rules,
    doc: &C::Doc,
    steps: &[Named<C>],
) -> Result<C::Doc, Failed<Refusal<C::Reason>>>
    requires { C.means.is_good rules.now doc.now }
    ensures { Answers (run C.means rules.now doc.now 0 steps.now) result }
{
    let mut so_far = C::copy_doc(alloc, doc)?;
    let mut index = 0;
    for step in steps {
        so_far = match step.change.apply(alloc, rules, &so_far) {
            Ok(next) => next,
            Err(Failed::Reason(reason)) => return Err(Failed::Reason(Refusal { index, reason })),
            Err(Failed::NoMemory) => return Err(Failed::NoMemory),
        };
        index += 1;
    }
    Ok(so_far)
}
