//! Runs that grow at their end.
ghost use Rattle.std.specs.Prelude.{◌≡◌, ◌+◌, ◌<◌, ◌^◌, ◌++◌, length, replicate, OnOk};
ghost use Rattle.pm_authors.specs.Runs.{same_author, spelled, AreMaximal};

use crate::run::Run;
use pm_change::Name;
use pm_list::Listed;
use std::alloc::AllocError;

/// Puts `count` tokens of one author after the last. They join the last run where that has this author.
pub(crate) fn add(
    runs: &mut Listed<Run>,
    author: Option<Name>,
    count: u64,
) -> Result<(), AllocError>
    requires { length (spelled runs.old) + count < 2 ^ 64 }
    ensures tokens { OnOk result (spelled runs.new ≡ spelled runs.old ++ replicate count author) }
    ensures maximal { AreMaximal runs.old → OnOk result (AreMaximal runs.new) }
{
    if count == 0 {
        return Ok(());
    }
    let mut run = Run { author, count };
    if let Some(last) = runs.pop() {
        if same_author(last.author, author) {
            run.count += last.count;
        } else {
            runs.push(last)?;
        }
    }
    runs.push(run)
}

/// Whether two tokens have one author.
fn same_author(a: Option<Name>, b: Option<Name>) -> bool
    ensures { result ≡ same_author a b }
{
    match (a, b) {
        (None, None) => true,
        (Some(n), Some(m)) => n.client == m.client && n.serial == m.serial,
        _ => false,
    }
}
