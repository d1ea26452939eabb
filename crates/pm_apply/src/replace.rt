//! Steps that replace a range by a slice: what they make of a document, and what takes them back.
ghost use Rattle.std.specs.Prelude.{◌≡◌, ◌≤◌, length, IfOk};
ghost use Rattle.pm_change.specs.Failing.{Answers};
ghost use Rattle.pm_tokens.specs.Faults.{Valid};
ghost use Rattle.pm_meaning.specs.Inverses.{replace_back};
ghost use Rattle.pm_meaning.specs.Outcomes.{made};
ghost use Rattle.pm_node.specs.Documents.{doc_with};
ghost use Rattle.pm_schema.specs.Documents.{documents_of};
ghost use Rattle.pm_step.specs.Steps.{step_of};

use crate::sides::{keeps_structure, sides_fit};
use pm_build::parts_pair;
use pm_change::Failed;
use pm_meaning::Reason;
use pm_node::{Document, Fragment, Node};
use pm_replace::splice_valid;
use pm_schema::Schema;
use pm_step::{ReplaceStep, Step};
use pm_view::view_content;
use std::alloc::{AllocError, Global};

/// The document with the top node's head and this content, with the step's range replaced by its slice, or the first reason
/// why not, in the order Range, Structure, Depth, Pair, Join, Large, Deep, Content.
pub fn replace(
    alloc: Global,
    schema: &Schema,
    top: &Node,
    content: &Fragment,
    step: &ReplaceStep,
) -> Result<Document, Failed<Reason>>
    requires { Valid (documents_of schema.now.spec) (doc_with top.now content.now) }
    ensures { Answers (made (documents_of schema.now.spec) (step_of (Step.Replace step.now)) (doc_with top.now content.now)) result }
{
    let from = step.from as usize;
    let to = step.to as usize;
    let slice = &step.slice;
    let _ = slice.size();
    let size = content.size();
    if to < from {
        return Err(Failed::Reason(Reason::Range));
    }
    if size < to {
        return Err(Failed::Reason(Reason::Range));
    }
    let keeps = keeps_structure(alloc, content, from, to, step.structure)?;
    if !keeps {
        return Err(Failed::Reason(Reason::Structure));
    }
    let fits = sides_fit(content, from, to, slice);
    if !fits {
        return Err(Failed::Reason(Reason::Depth));
    }
    if parts_pair(content, from) {
        return Err(Failed::Reason(Reason::Pair));
    }
    if parts_pair(content, to) {
        return Err(Failed::Reason(Reason::Pair));
    }
    splice_valid(alloc, schema, top, content, from, to, slice)
}

/// The step that puts what stands in the step's range back in place of its slice.
pub fn replace_back(
    alloc: Global,
    top: &Node,
    content: &Fragment,
    step: &ReplaceStep,
) -> Result<Step, AllocError>
    requires order { step.now.from ≤ step.now.to }
    requires within { step.now.to ≤ length content.now }
    ensures { IfOk result (λ s. step_of s ≡ replace_back (doc_with top.now content.now) step.now.from step.now.to step.now.slice) }
{
    let _ = content.size();
    let before = view_content(content, step.from as usize, step.to as usize);
    let cut = before.slice(alloc)?;
    Ok(Step::Replace(ReplaceStep {
        from: step.from,
        to: step.from + step.slice.size() as u64,
        slice: cut,
        structure: false,
    }))
}
