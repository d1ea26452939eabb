//! Steps that mark one node: what they make of a document, and the steps that take them back.
ghost use Rattle.std.specs.Prelude.{◌≡◌, ℕ, IfOk, Ok};
ghost use Rattle.std.specs.Option.{option_copied};
ghost use Rattle.pm_change.specs.Failing.{Answers};
ghost use Rattle.pm_tokens.specs.Tokens.{Doc};
ghost use Rattle.pm_tokens.specs.Faults.{Valid};
ghost use Rattle.pm_meaning.specs.Outcomes.{made, outcome};
ghost use Rattle.pm_meaning.specs.Inverses.{first_lost, inverse};
ghost use Rattle.pm_node.specs.Documents.{doc_with};
ghost use Rattle.pm_schema.specs.Documents.{documents_of};
ghost use Rattle.pm_step.specs.Steps.{node_step, step_of};
ghost use Rattle.pm_apply.specs.Backs.{back_step};

use crate::change::DocChange;
use crate::marking::{Reach, change};
use crate::marks::mark_content;
use crate::runs::give_back;
use crate::sides::node_marks_at;
use crate::target::{Target, push_step};
use crate::walk::Walk;
use pm_attrs::Attrs;
use pm_build::parts_pair;
use pm_change::Failed;
use pm_marks::{Mark, MarkSet};
use pm_meaning::Reason;
use pm_node::{Difference, Document, Fragment, Node};
use pm_replace::checked_change;
use pm_schema::Schema;
use pm_step::{Marking, NodeMarkStep, Step};
use std::alloc::{AllocError, Global};

/// The document with the top node's head and this content, with the marks of the node at the step's position changed, or the
/// first reason why not, in the order Range, Pair, Large, Deep, Content, NoNode.
pub fn mark_node(
    alloc: Global,
    schema: &Schema,
    top: &Node,
    content: &Fragment,
    step: &NodeMarkStep,
) -> Result<Document, Failed<Reason>>
    requires { Valid (documents_of schema.now.spec) (doc_with top.now content.now) }
    ensures { Answers (made (documents_of schema.now.spec) (step_of (Step.NodeMark step.now)) (doc_with top.now content.now)) result }
{
    let pos = step.pos as usize;
    let size = content.size();
    if size < pos {
        return Err(Failed::Reason(Reason::Range));
    }
    if parts_pair(content, pos) {
        return Err(Failed::Reason(Reason::Pair));
    }
    let Some(_) = node_marks_at(content, pos) else {
        return Err(Failed::Reason(Reason::NoNode));
    };
    let walk = Walk {
        schema,
        marking: &step.marking,
        parent: top.kind,
    };
    let made = mark_content(alloc, &walk, content, pos, pos + 1, Reach::Nodes)?;
    let change = Difference {
        from: pos,
        to: pos + 1,
        new_to: pos + 1,
    };
    checked_change(alloc, schema, top, content, made, change)
}

/// The steps that take the step back: one step where that gives the old marks, and else steps
/// that remove the new marks and add the old ones.
pub fn node_back(
    alloc: Global,
    schema: &Schema,
    top: &Node,
    content: &Fragment,
    step: &NodeMarkStep,
) -> Result<Vec<DocChange>, AllocError>
    requires good { Valid (documents_of schema.now.spec) (doc_with top.now content.now) }
    requires applies { ((next : Doc) × (outcome (documents_of schema.now.spec) (step_of (Step.NodeMark step.now)) (doc_with top.now content.now) ≡ Ok next)) }
    ensures { IfOk result (λ v. v.items ≡ inverse (documents_of schema.now.spec) (step_of (Step.NodeMark step.now)) (doc_with top.now content.now)) }
{
    let pos = step.pos as usize;
    let marking = &step.marking;
    let Some(old) = node_marks_at(content, pos) else {
        unreachable!()
    };
    let new = change(alloc, schema, marking, old)?;
    let back = one_back(alloc, marking, old, &new)?;
    let restored = change(alloc, schema, &back, &new)?;
    let target = Target::Node { pos };
    let mut steps = Vec::new(alloc);
    let same = restored.same(old);
    if same {
        push_step(alloc, &mut steps, target, back)?;
        return Ok(steps);
    }
    give_back(alloc, &mut steps, target, old, &new)?;
    Ok(steps)
}

/// The one marking that may take a marking back, by the old and the new set.
fn one_back(
    alloc: Global,
    marking: &Marking,
    old: &MarkSet<Attrs>,
    new: &MarkSet<Attrs>,
) -> Result<Marking, AllocError>
    ensures { IfOk result (λ b. (pos : ℕ) → node_step b pos ≡ back_step marking.now pos old.now new.now) }
{
    match marking {
        Marking::Add(mark) => {
            if new.marks().len() != old.marks().len() {
                return Ok(Marking::Remove(mark.copy(alloc)?));
            }
            match first_lost(old, new) {
                Some(lost) => Ok(Marking::Add(lost.copy(alloc)?)),
                None => Ok(Marking::Add(mark.copy(alloc)?)),
            }
        }
        Marking::Remove(mark) => {
            if old.has(mark) {
                Ok(Marking::Add(mark.copy(alloc)?))
            } else {
                Ok(Marking::Remove(mark.copy(alloc)?))
            }
        }
    }
}

/// The first of the old marks that is not in the new set.
fn first_lost<'a>(old: &'a MarkSet<Attrs>, new: &MarkSet<Attrs>) -> Option<&'a Mark<Attrs>>
    ensures { option_copied result ≡ first_lost old.now new.now }
{
    for mark in old.marks() {
        if !new.has(mark) {
            return Some(mark);
        }
    }
    None
}
