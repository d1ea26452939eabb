//! Steps that mark a range: what they make of a document, and the steps that take them back.
ghost use Rattle.std.specs.Prelude.{◌≡◌, IfOk, Ok};
ghost use Rattle.pm_change.specs.Failing.{Answers};
ghost use Rattle.pm_tokens.specs.Tokens.{Doc};
ghost use Rattle.pm_tokens.specs.Faults.{Valid};
ghost use Rattle.pm_meaning.specs.Outcomes.{made, outcome};
ghost use Rattle.pm_meaning.specs.Inverses.{inverse};
ghost use Rattle.pm_node.specs.Documents.{doc_with};
ghost use Rattle.pm_schema.specs.Documents.{documents_of};
ghost use Rattle.pm_step.specs.Steps.{step_of};

use crate::change::DocChange;
use crate::marking::Reach;
use crate::marks::mark_content;
use crate::restoring::restores;
use crate::runs::Runs;
use crate::target::{Target, push_step};
use crate::walk::Walk;
use pm_build::parts_pair;
use pm_change::Failed;
use pm_meaning::Reason;
use pm_node::{Difference, Document, Fragment, Node};
use pm_replace::checked_change;
use pm_schema::Schema;
use pm_step::{MarkStep, Step};
use std::alloc::{AllocError, Global};

/// The document with the top node's head and this content, with the marks in the step's range changed, or the first reason why
/// not, in the order Range, Pair, Large, Deep, Content.
pub fn mark_range(
    alloc: Global,
    schema: &Schema,
    top: &Node,
    content: &Fragment,
    step: &MarkStep,
) -> Result<Document, Failed<Reason>>
    requires { Valid (documents_of schema.now.spec) (doc_with top.now content.now) }
    ensures { Answers (made (documents_of schema.now.spec) (step_of (Step.Mark step.now)) (doc_with top.now content.now)) result }
{
    let from = step.from as usize;
    let to = step.to as usize;
    let size = content.size();
    if to < from {
        return Err(Failed::Reason(Reason::Range));
    }
    if size < to {
        return Err(Failed::Reason(Reason::Range));
    }
    if parts_pair(content, from) {
        return Err(Failed::Reason(Reason::Pair));
    }
    if parts_pair(content, to) {
        return Err(Failed::Reason(Reason::Pair));
    }
    let walk = Walk {
        schema,
        marking: &step.marking,
        parent: top.kind,
    };
    let made = mark_content(alloc, &walk, content, from, to, Reach::Inline)?;
    let change = Difference {
        from,
        to,
        new_to: to,
    };
    checked_change(alloc, schema, top, content, made, change)
}

/// The steps that take the step back: one step where that gives the old marks, and else steps run by run.
pub fn range_back(
    alloc: Global,
    schema: &Schema,
    top: &Node,
    content: &Fragment,
    step: &MarkStep,
) -> Result<Vec<DocChange>, AllocError>
    requires good { Valid (documents_of schema.now.spec) (doc_with top.now content.now) }
    requires applies { ((next : Doc) × (outcome (documents_of schema.now.spec) (step_of (Step.Mark step.now)) (doc_with top.now content.now) ≡ Ok next)) }
    ensures { IfOk result (λ v. v.items ≡ inverse (documents_of schema.now.spec) (step_of (Step.Mark step.now)) (doc_with top.now content.now)) }
{
    let from = step.from as usize;
    let to = step.to as usize;
    let marking = &step.marking;
    let size = content.size();
    let back = marking.opposite(alloc)?;
    let walk = Walk {
        schema,
        marking,
        parent: top.kind,
    };
    let kept = restores(alloc, &walk, &back, content, from, to)?;
    if kept {
        let mut steps = Vec::new(alloc);
        push_step(alloc, &mut steps, Target::Range { from, to }, back)?;
        return Ok(steps);
    }
    let mut runs = Runs::new(alloc);
    runs.take_content(alloc, &walk, content, 0, from, to)?;
    runs.close(alloc, size)?;
    Ok(runs.steps)
}
