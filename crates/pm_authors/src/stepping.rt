//! Runs over the map of one step.
ghost use Rattle.std.specs.Prelude.{◌≡◌, ◌+◌, ◌-◌, ◌≤◌, ◌<◌, ◌^◌, ◌++◌, length, take, drop, replicate, IfOk, OnOk};
ghost use Rattle.pm_authors.specs.Runs.{spelled, AreMaximal};
ghost use Rattle.pm_authors.specs.Stepping.{over};

use crate::adding::add;
use crate::copying::copy_part;
use crate::run::Run;
use pm_change::Name;
use pm_list::Listed;
use pm_map::{Span, StepMap};
use std::alloc::{AllocError, Global};

/// The runs after a step of this author with this map.
pub(crate) fn after_step(
    alloc: Global,
    author: Option<Name>,
    map: &StepMap,
    runs: &[Run],
) -> Result<Listed<Run>, AllocError>
    requires { length (over author map.now 0 (spelled runs.now)) < 2 ^ 64 }
    ensures tokens { IfOk result (λ l. spelled l ≡ over author map.now 0 (spelled runs.now)) }
    ensures maximal { IfOk result (λ l. AreMaximal l) }
{
    map.ordered();
    map.few();
    let mut so_far = Listed::new(alloc);
    let mut at = 0;
    for i in 0..2 {
        if let Some(range) = map.span(i) {
            at = over_range(&mut so_far, author, range, runs, at)?;
        }
    }
    copy_part(&mut so_far, runs, at, u64::MAX)?;
    Ok(so_far)
}

/// Adds the tokens of `runs` from the position `at` up to a range, and what the range puts in. The answer is the range's end.
fn over_range(
    so_far: &mut Listed<Run>,
    author: Option<Name>,
    range: Span,
    runs: &[Run],
    at: u64,
) -> Result<u64, AllocError>
    requires order { at ≤ range.start }
    requires end { range.start + range.old_size < 2 ^ 64 }
    requires room { length (spelled so_far.old) + (length (take (range.start - at) (drop at (spelled runs.now))) + range.new_size) < 2 ^ 64 }
    ensures tokens { IfOk result (λ end. (end ≡ range.start + range.old_size) × (spelled so_far.new ≡ spelled so_far.old ++ (take (range.start - at) (drop at (spelled runs.now)) ++ replicate range.new_size author))) }
    ensures maximal { AreMaximal so_far.old → OnOk result (AreMaximal so_far.new) }
{
    copy_part(so_far, runs, at, range.start - at)?;
    add(so_far, author, range.new_size)?;
    Ok(range.start + range.old_size)
}
