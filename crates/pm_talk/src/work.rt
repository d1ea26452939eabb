//! How much work steps are.
ghost use Rattle.std.specs.Prelude.{◌≡◌};
ghost use Rattle.pm_step.specs.Steps.{step_of};
ghost use Rattle.pm_talk.specs.Work.{over, work, works};

use pm_apply::DocChange;
use pm_step::{Marking, Step};

/// How many tokens the steps go over: those of their ranges and of their slices' content, and one for each step. It is known before
/// any of them is applied, takes no memory, and stands still at 2^64 - 1.
pub fn works(steps: &[DocChange]) -> u64
    ensures { result ≡ works steps.now }
{
    let mut sum = 0u64;
    for step in steps {
        sum = sum.saturating_add(work(step.step()));
    }
    sum
}

/// How many tokens one step goes over.
fn work(step: &Step) -> u64
    ensures { result ≡ work (step_of step.now) }
{
    match step {
        Step::Replace(step) => over(step.from, step.to, step.slice.content().size() as u64),
        Step::ReplaceAround(step) => over(step.from, step.to, step.slice.content().size() as u64),
        Step::Mark(step) => match &step.marking {
            Marking::Add(_) | Marking::Remove(_) => over(step.from, step.to, 0),
        },
        Step::NodeMark(step) => match &step.marking {
            Marking::Add(_) | Marking::Remove(_) => 1,
        },
        Step::Attr(_) | Step::DocAttr(_) => 1,
    }
}

/// The tokens from one position to another, so many of a slice's content, and one for the step itself.
fn over(from: u64, to: u64, size: u64) -> u64
    ensures { result ≡ over from to size }
{
    to.saturating_sub(from)
        .saturating_add(size)
        .saturating_add(1)
}
