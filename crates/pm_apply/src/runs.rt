//! The steps that give the marks of tokens back, run by run.
ghost use Rattle.std.specs.Prelude.{◌≡◌, ◌∷◌, ◌++◌, [], not, List, length, None, IfOk, OnOk};
ghost use Rattle.pm_attrs.specs.Attrs.{same_attrs};
ghost use Rattle.pm_marks.specs.Sets.{same_marks};
ghost use Rattle.pm_tokens.specs.Tokens.{Token};
ghost use Rattle.pm_tokens.specs.Schemas.{Schema};
ghost use Rattle.pm_meaning.specs.Runs.{close_run, continues, due, next_run};
ghost use Rattle.pm_step.specs.Steps.{step_of};
ghost use Rattle.pm_apply.specs.Walks.{Took, given_back, run_of};

use crate::change::DocChange;
use crate::target::{Target, push_step};
use pm_attrs::Attrs;
use pm_marks::{Mark, MarkSet};
use pm_step::Marking;
use std::alloc::{AllocError, Global};

/// Neighbouring tokens that had one set of marks and have another now.
#[derive(Drop)]
pub struct Run {
    /// The position of the first of them.
    pub start: usize,
    pub old: MarkSet<Attrs>,
    pub new: MarkSet<Attrs>,
}

/// The steps for the tokens so far, and the run that the last of them is in.
#[derive(Drop)]
pub struct Runs {
    pub steps: Vec<DocChange>,
    pub run: Option<Run>,
}

/// Appends the steps that give the old marks back to the others: the new ones are removed in order, and then the old ones
/// added in order.
pub fn give_back(
    alloc: Global,
    steps: &mut Vec<DocChange>,
    target: Target,
    old: &MarkSet<Attrs>,
    new: &MarkSet<Attrs>,
) -> Result<(), AllocError>
    ensures { OnOk result (steps.new.items ≡ steps.old.items ++ given_back target old.now new.now) }
{
    remove_all(alloc, steps, target, new.marks())?;
    add_all(alloc, steps, target, old.marks())
}

fn remove_all(
    alloc: Global,
    steps: &mut Vec<DocChange>,
    target: Target,
    marks: &[Mark<Attrs>],
) -> Result<(), AllocError>
    ensures { OnOk result (steps.new.items ≡ steps.old.items ++ given_back target [] marks.now) }
{
    for mark in marks {
        push_step(alloc, steps, target, Marking::Remove(mark.copy(alloc)?))?;
    }
    Ok(())
}

fn add_all(
    alloc: Global,
    steps: &mut Vec<DocChange>,
    target: Target,
    marks: &[Mark<Attrs>],
) -> Result<(), AllocError>
    ensures { OnOk result (steps.new.items ≡ steps.old.items ++ given_back target marks.now []) }
{
    for mark in marks {
        push_step(alloc, steps, target, Marking::Add(mark.copy(alloc)?))?;
    }
    Ok(())
}

impl Runs {
    pub fn new(alloc: Global) -> Runs
        ensures steps { result.steps.items ≡ [] }
        ensures run { result.run ≡ None }
    {
        Runs {
            steps: Vec::new(alloc),
            run: None,
        }
    }

    /// Ends the run at the position.
    pub fn close(&mut self, alloc: Global, at: usize) -> Result<(), AllocError>
        ensures steps { OnOk result (self.new.steps.items ≡ self.old.steps.items ++ close_run (run_of self.old.run) at) }
        ensures run { OnOk result (self.new.run ≡ None) }
    {
        match self.run.take() {
            Some(run) => {
                let target = Target::Range {
                    from: run.start,
                    to: at,
                };
                give_back(alloc, &mut self.steps, target, &run.old, &run.new)
            }
            None => Ok(()),
        }
    }

    /// Takes `count` tokens from the position on, which stay as they are: they end the run.
    pub fn pass(&mut self, alloc: Global, at: usize, count: usize) -> Result<(), AllocError>
        ensures { OnOk result ((s : Schema) (ts : List Token) → length ts ≡ count → Took s at ts ts self.old self.new) }
    {
        if count == 0 {
            return Ok(());
        }
        self.close(alloc, at)
    }

    /// Whether a token with these sets goes on the run.
    fn goes_on(&self, old: &MarkSet<Attrs>, new: &MarkSet<Attrs>) -> bool
        ensures { result ≡ continues (run_of self.now.run) old.now new.now }
    {
        match &self.run {
            Some(run) => run.old.same(old) && run.new.same(new),
            None => false,
        }
    }

    /// Takes the token at the position, which had the marks `old` and has the marks `new`. takes: it is one of those in runs.
    pub fn token(
        &mut self,
        alloc: Global,
        at: usize,
        takes: bool,
        old: &MarkSet<Attrs>,
        new: &MarkSet<Attrs>,
    ) -> Result<(), AllocError>
        ensures steps { let changed = not (same_marks same_attrs old.now new.now) in
            let on = continues (run_of self.old.run) old.now new.now in
            OnOk result (self.new.steps.items ≡ self.old.steps.items ++ due changed takes on (run_of self.old.run) at old.now new.now) }
        ensures run { let changed = not (same_marks same_attrs old.now new.now) in
            let on = continues (run_of self.old.run) old.now new.now in
            OnOk result (run_of self.new.run ≡ next_run changed takes on (run_of self.old.run) at old.now new.now) }
    {
        if old.same(new) {
            return self.close(alloc, at);
        }
        if !takes {
            self.close(alloc, at)?;
            return give_back(alloc, &mut self.steps, Target::Node { pos: at }, old, new);
        }
        if self.goes_on(old, new) {
            return Ok(());
        }
        self.close(alloc, at)?;
        self.run = Some(Run {
            start: at,
            old: old.copy(alloc)?,
            new: new.copy(alloc)?,
        });
        Ok(())
    }
}
