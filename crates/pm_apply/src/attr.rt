//! Steps that change an attribute of one node: what they make of a document, and the step that takes them back.
ghost use Rattle.std.specs.Prelude.{◌≡◌, ℕ, IfOk, Ok};
ghost use Rattle.pm_change.specs.Failing.{Answers};
ghost use Rattle.pm_tokens.specs.Tokens.{Doc};
ghost use Rattle.pm_tokens.specs.Faults.{Valid};
ghost use Rattle.pm_meaning.specs.Outcomes.{made, outcome};
ghost use Rattle.pm_meaning.specs.Inverses.{attr_back};
ghost use Rattle.pm_node.specs.Documents.{doc_with};
ghost use Rattle.pm_schema.specs.Documents.{documents_of};
ghost use Rattle.pm_step.specs.Steps.{step_of};

use crate::sides::node_at;
use crate::values::{old_value, settle, value_content};
use pm_build::parts_pair;
use pm_change::Failed;
use pm_meaning::Reason;
use pm_node::{Document, Fragment, Node};
use pm_schema::Schema;
use pm_step::{AttrStep, Step};
use std::alloc::{AllocError, Global};

/// The document with the top node's head and this content, in which the attribute of the node at the step's position has the
/// step's value, or the first reason why not, in the order Range, Pair, NoNode, NoAttribute, BadValue, Content. Of the document
/// it looks at the nodes around the position alone.
pub fn set_attr(
    alloc: Global,
    schema: &Schema,
    top: &Node,
    content: &Fragment,
    step: &AttrStep,
) -> Result<Document, Failed<Reason>>
    requires { Valid (documents_of schema.now.spec) (doc_with top.now content.now) }
    ensures { Answers (made (documents_of schema.now.spec) (step_of (Step.Attr step.now)) (doc_with top.now content.now)) result }
{
    let pos = step.pos as usize;
    let size = content.size();
    if size < pos {
        return Err(Failed::Reason(Reason::Range));
    }
    if parts_pair(content, pos) {
        return Err(Failed::Reason(Reason::Pair));
    }
    let Some(node) = node_at(content, pos) else {
        return Err(Failed::Reason(Reason::NoNode));
    };
    match settle(schema, node.kind, &step.attr, &step.value, pos + 1) {
        Err(reason) => Err(Failed::Reason(reason)),
        Ok(place) => {
            let made = value_content(alloc, content, pos, place, &step.value)?;
            let next = Document::with_content(alloc, top, made)?;
            Ok(next)
        }
    }
}

/// The step that takes the step back: it gives the attribute its old value.
pub fn attr_back(
    alloc: Global,
    schema: &Schema,
    top: &Node,
    content: &Fragment,
    step: &AttrStep,
) -> Result<Step, AllocError>
    requires good { Valid (documents_of schema.now.spec) (doc_with top.now content.now) }
    requires applies { ((next : Doc) × (outcome (documents_of schema.now.spec) (step_of (Step.Attr step.now)) (doc_with top.now content.now) ≡ Ok next)) }
    ensures { IfOk result (λ s. step_of s ≡ attr_back (documents_of schema.now.spec) step.now.pos step.now.attr (doc_with top.now content.now)) }
{
    let _ = top;
    let Some(node) = node_at(content, step.pos as usize) else {
        unreachable!()
    };
    let value = old_value(alloc, schema, node.kind, &step.attr, &node.attrs)?;
    Ok(Step::Attr(AttrStep {
        pos: step.pos,
        attr: step.attr.copy(alloc)?,
        value,
    }))
}
