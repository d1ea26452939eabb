//! Steps as changes.
ghost use Rattle.std.specs.Prelude.{◌≡◌, IfOk};
ghost use Rattle.pm_step.specs.Steps.{step_of};

use crate::apply::apply;
use crate::inverse::inverse;
use pm_change::{Change, Failed};
use pm_map::{Positions, StepMap};
use pm_meaning::Reason;
use pm_node::Document;
use pm_schema::Schema;
use pm_step::Step;
use std::alloc::{AllocError, Global};
use std::marker::Model;
use std::sync::Arc;

/// A step, as a change of documents under a schema. Its copies share the step: the log, messages, answers and histories hold one
/// value.
#[derive(Drop)]
pub struct DocChange {
    step: Arc<Step, Global>,
}

impl Model for DocChange {
    ghost use Rattle.std.specs.Arc.{arc_value};
    ghost use Rattle.pm_meaning.specs.Steps as steps;
    ghost use Rattle.pm_step.specs.Codes.{step_code};
    ghost use Rattle.pm_step.specs.Steps.{step_of};

    ghost Value = { steps.Step };

    ghost coded = { step_code };

    ghost view = { λ c. step_of (arc_value c.step) };
}

impl DocChange {
    /// The change that a step is.
    pub fn new(alloc: Global, step: Step) -> Result<DocChange, AllocError>
        ensures { IfOk result (λ c. c ≡ step_of step) }
    {
        Ok(DocChange {
            step: Arc::new(alloc, step)?,
        })
    }

    /// The step that the change is. It takes no memory.
    pub fn step(&self) -> &Step
        ensures { step_of result.now ≡ self.now }
    {
        &self.step
    }
}

impl Change for DocChange {
    ghost use Rattle.pm_apply.specs.Changes.{meaning};
    ghost use Rattle.pm_apply.specs.Laws.{laws};

    type Rules = Schema;

    type Doc = Document;

    type Reason = Reason;

    ghost means = { meaning };

    fn apply(
        &self,
        alloc: Global,
        rules: &Schema,
        doc: &Document,
    ) -> Result<Document, Failed<Reason>> {
        apply(alloc, rules, &self.step, doc)
    }

    fn inverse(
        &self,
        alloc: Global,
        rules: &Schema,
        doc: &Document,
    ) -> Result<Vec<DocChange>, AllocError> {
        inverse(alloc, rules, &self.step, doc)
    }

    fn step_map(&self) -> StepMap {
        self.step.step_map()
    }

    fn carry<P: Positions>(
        &self,
        alloc: Global,
        positions: &P,
    ) -> Result<Option<DocChange>, AllocError> {
        match self.step.carry(alloc, positions)? {
            Some(step) => Ok(Some(DocChange::new(alloc, step)?)),
            None => Ok(None),
        }
    }

    fn size(doc: &Document) -> usize {
        doc.size()
    }

    fn copy(&self, _alloc: Global) -> Result<DocChange, AllocError> {
        Ok(DocChange {
            step: Arc::try_clone(&self.step)?,
        })
    }

    fn copy_doc(_alloc: Global, doc: &Document) -> Result<Document, AllocError> {
        doc.copy()
    }

    ghost laws = { laws };
}
