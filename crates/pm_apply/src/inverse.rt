//! The steps that take a step back.
ghost use Rattle.std.specs.Prelude.{◌≡◌, ◌∷◌, [], IfOk, Ok};
ghost use Rattle.pm_tokens.specs.Tokens.{Doc};
ghost use Rattle.pm_tokens.specs.Faults.{Valid};
ghost use Rattle.pm_meaning.specs.Outcomes.{outcome};
ghost use Rattle.pm_meaning.specs.Inverses.{inverse};
ghost use Rattle.pm_node.specs.Documents.{doc_with};
ghost use Rattle.pm_schema.specs.Documents.{documents_of};
ghost use Rattle.pm_step.specs.Steps.{step_of};

use crate::around_back::around_back;
use crate::attr::attr_back;
use crate::change::DocChange;
use crate::doc_attr::doc_attr_back;
use crate::mark::range_back;
use crate::node_mark::node_back;
use crate::replace::replace_back;
use pm_node::{Document, Fragment, Node};
use pm_schema::Schema;
use pm_step::Step;
use std::alloc::{AllocError, Global};

/// The steps that take a step back, to be made one after another on the document after it. `doc` is the document before it.
/// ProseMirror: `Step.invert`.
pub fn inverse(
    alloc: Global,
    schema: &Schema,
    step: &Step,
    doc: &Document,
) -> Result<Vec<DocChange>, AllocError>
    requires good { Valid (documents_of schema.now.spec) doc.now }
    requires applies { ((next : Doc) × (outcome (documents_of schema.now.spec) (step_of step.now) doc.now ≡ Ok next)) }
    ensures { IfOk result (λ v. v.items ≡ inverse (documents_of schema.now.spec) (step_of step.now) doc.now) }
{
    inverse_in(alloc, schema, step, doc.top(), doc.content())
}

/// The same for the document with the top node's type, attributes and marks and this content.
fn inverse_in(
    alloc: Global,
    schema: &Schema,
    step: &Step,
    top: &Node,
    content: &Fragment,
) -> Result<Vec<DocChange>, AllocError>
    requires good { Valid (documents_of schema.now.spec) (doc_with top.now content.now) }
    requires applies { ((next : Doc) × (outcome (documents_of schema.now.spec) (step_of step.now) (doc_with top.now content.now) ≡ Ok next)) }
    ensures { IfOk result (λ v. v.items ≡ inverse (documents_of schema.now.spec) (step_of step.now) (doc_with top.now content.now)) }
{
    match step {
        Step::Replace(step) => one(alloc, replace_back(alloc, top, content, step)?),
        Step::ReplaceAround(step) => one(alloc, around_back(alloc, schema, top, content, step)?),
        Step::Mark(step) => range_back(alloc, schema, top, content, step),
        Step::NodeMark(step) => node_back(alloc, schema, top, content, step),
        Step::Attr(step) => one(alloc, attr_back(alloc, schema, top, content, step)?),
        Step::DocAttr(step) => one(alloc, doc_attr_back(alloc, schema, top, content, step)?),
    }
}

/// The list of one step.
fn one(alloc: Global, step: Step) -> Result<Vec<DocChange>, AllocError>
    ensures { IfOk result (λ v. v.items ≡ step_of step ∷ []) }
{
    let mut steps = Vec::new(alloc);
    steps.push(DocChange::new(alloc, step)?)?;
    Ok(steps)
}
