//! Steps that change an attribute of the top node: what they make of a document, and the step that takes them back.
ghost use Rattle.std.specs.Prelude.{◌≡◌, ℕ, IfOk, Ok};
ghost use Rattle.pm_change.specs.Failing.{Answers};
ghost use Rattle.pm_tokens.specs.Tokens.{Doc};
ghost use Rattle.pm_tokens.specs.Faults.{Valid};
ghost use Rattle.pm_meaning.specs.Outcomes.{made, outcome};
ghost use Rattle.pm_meaning.specs.Inverses.{doc_attr_back};
ghost use Rattle.pm_node.specs.Documents.{doc_with};
ghost use Rattle.pm_schema.specs.Documents.{documents_of};
ghost use Rattle.pm_step.specs.Steps.{step_of};

use crate::values::{old_value, settle};
use pm_change::Failed;
use pm_marks::Same;
use pm_meaning::Reason;
use pm_node::{Body, Document, Fragment, Node};
use pm_schema::Schema;
use pm_step::{DocAttrStep, Step};
use std::alloc::{AllocError, Global};

/// The document with the top node's head and this content, in which the attribute of the top node has the step's value, or the
/// first reason why not, in the order NoAttribute, BadValue, Content. It shares the content, and looks at none of it.
pub fn set_doc_attr(
    alloc: Global,
    schema: &Schema,
    top: &Node,
    content: &Fragment,
    step: &DocAttrStep,
) -> Result<Document, Failed<Reason>>
    requires { Valid (documents_of schema.now.spec) (doc_with top.now content.now) }
    ensures { Answers (made (documents_of schema.now.spec) (step_of (Step.DocAttr step.now)) (doc_with top.now content.now)) result }
{
    match settle(schema, top.kind, &step.attr, &step.value, 0) {
        Err(reason) => Err(Failed::Reason(reason)),
        Ok(place) => {
            let top = Node {
                kind: top.kind,
                attrs: top.attrs.with_value(alloc, place, &step.value)?,
                marks: top.marks.copy(alloc)?,
                body: Body::Children(content.copy(alloc)?),
            };
            let next = Document::new(alloc, top)?;
            Ok(next)
        }
    }
}

/// The step that takes the step back: it gives the attribute its old value.
pub fn doc_attr_back(
    alloc: Global,
    schema: &Schema,
    top: &Node,
    content: &Fragment,
    step: &DocAttrStep,
) -> Result<Step, AllocError>
    requires { Valid (documents_of schema.now.spec) (doc_with top.now content.now) }
    ensures { IfOk result (λ s. step_of s ≡ doc_attr_back (documents_of schema.now.spec) step.now.attr (doc_with top.now content.now)) }
{
    let _ = content;
    let value = old_value(alloc, schema, top.kind, &step.attr, &top.attrs)?;
    Ok(Step::DocAttr(DocAttrStep {
        attr: step.attr.copy(alloc)?,
        value,
    }))
}
