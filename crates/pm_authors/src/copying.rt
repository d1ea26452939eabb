//! A part of runs.
ghost use Rattle.std.specs.Prelude.{◌≡◌, ◌+◌, ◌<◌, ◌^◌, ◌++◌, length, take, drop, OnOk};
ghost use Rattle.pm_authors.specs.Runs.{spelled, AreMaximal};

use crate::adding::add;
use crate::run::Run;
use pm_list::Listed;
use std::alloc::AllocError;

/// Adds `count` tokens of `runs` to `copy`, or as many as there are, without the first `skip`.
pub(crate) fn copy_part(
    copy: &mut Listed<Run>,
    runs: &[Run],
    skip: u64,
    count: u64,
) -> Result<(), AllocError>
    requires { length (spelled copy.old) + length (take count (drop skip (spelled runs.now))) < 2 ^ 64 }
    ensures tokens { OnOk result (spelled copy.new ≡ spelled copy.old ++ take count (drop skip (spelled runs.now))) }
    ensures maximal { AreMaximal copy.old → OnOk result (AreMaximal copy.new) }
{
    let mut passing = skip;
    let mut left = count;
    for run in runs {
        let taken = run.count.saturating_sub(passing).min(left);
        add(copy, run.author, taken)?;
        passing = passing.saturating_sub(run.count);
        left -= taken;
    }
    Ok(())
}
