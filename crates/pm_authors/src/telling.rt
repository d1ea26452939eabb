//! Authors over the steps of a log.
ghost use Rattle.std.specs.Prelude.{◌≡◌, IfOk};
ghost use Rattle.pm_authors.specs.Runs.{grouped, tokens_of, AreMaximal};
ghost use Rattle.pm_authors.specs.Authors.{ApplyFrom, authors_of};

use crate::adding::add;
use crate::run::Run;
use crate::stepping::after_step;
use pm_authority::Named;
use pm_change::Change;
use pm_list::Listed;
use std::alloc::{AllocError, Global};

/// Who put the tokens of the document after the steps in, from its start to its end: runs of neighbouring tokens of one
/// author, as long as can be. A token that a step put in, in place of others too, is that step's by its name; None has put in
/// what was there before the steps. A step that puts no token in, such as a mark's, is no author.
///
/// The steps must apply one after another to a good document of `size` tokens. This takes a time of the number of steps times
/// that of runs, however many tokens these have, and the memory of two lists of runs.
pub fn authors<C: Change>(
    alloc: Global,
    steps: &[Named<C>],
    size: usize,
) -> Result<Vec<Run>, AllocError>
    requires { ApplyFrom C.means steps.now size }
    ensures runs { IfOk result (λ v. v.items ≡ grouped (authors_of C.means steps.now size)) }
    ensures maximal { IfOk result (λ v. AreMaximal v.items) }
    // They are the tokens of the document after the steps.
    ensures whole { IfOk result (λ v. (f : ApplyFrom C.means steps.now size) → tokens_of v.items ≡ C.means.size f.last) }
{
    let mut runs = Listed::new(alloc);
    add(&mut runs, None, size as u64)?;
    for step in steps {
        let map = step.change.step_map();
        runs = after_step(alloc, Some(step.name), &map, runs.as_slice())?;
    }
    Ok(runs.into_vec())
}
