//! What a step makes of a document.
ghost use Rattle.std.specs.Prelude.{◌≡◌, IfOk};
ghost use Rattle.pm_change.specs.Failing.{Answers};
ghost use Rattle.pm_tokens.specs.Faults.{Valid};
ghost use Rattle.pm_meaning.specs.Outcomes.{made, outcome};
ghost use Rattle.pm_node.specs.Documents.{doc_with};
ghost use Rattle.pm_schema.specs.Documents.{documents_of};
ghost use Rattle.pm_meaning.specs.Known.{knows_mark, knows_step};
ghost use Rattle.pm_step.specs.Steps.{mark_in, step_of};

use crate::around::replace_around;
use crate::attr::set_attr;
use crate::doc_attr::set_doc_attr;
use crate::mark::mark_range;
use crate::node_mark::mark_node;
use crate::replace::replace;
use pm_change::Failed;
use pm_meaning::Reason;
use pm_node::{Document, Fragment, Node};
use pm_replace::{knows_mark, knows_slice};
use pm_schema::Schema;
use pm_step::{Marking, Step};
use std::alloc::{AllocError, Global};

/// The document after a step. Positions are in tokens. Each step that applies can be written and is read back
/// (`applied_can_be_written` of pm_stepjson).
///
/// # Errors
///
/// The first reason why the step does not apply, in this order; where it changes an attribute, the three of attributes come
/// before `Large`.
/// - `Range`: the positions are not in order or pass the size, or `insert` passes the slice.
/// - `Structure`: a range that a step with `structure` overwrites is not closes and then opens.
/// - `Gap`: the gap is no whole number of nodes.
/// - `Depth`: the open sides do not fit the depths of the ends.
/// - `Pair`: a position parts a surrogate pair, in the document or in the slice.
/// - `Join`: an open node meets a close whose owner's type is not compatible with its own.
/// - `Large`, `Deep`, `Content`: the result has too many tokens, nests too deep, or has a fault, of which the least place is named.
/// - `NoNode`: no node begins at the position.
/// - `NoAttribute`: the type of that node, or of the top node, declares no attribute of the name.
/// - `BadValue`: the attribute names kinds of values, and the value is of none of them.
/// - `NotInSchema`: the step's mark, or a node that is open at the start of its slice, has a type, attributes or marks that are
///   none of the schema.
///
/// ProseMirror: `Step.apply`.
pub fn apply(
    alloc: Global,
    schema: &Schema,
    step: &Step,
    doc: &Document,
) -> Result<Document, Failed<Reason>>
    requires { Valid (documents_of schema.now.spec) doc.now }
    ensures { Answers (outcome (documents_of schema.now.spec) (step_of step.now) doc.now) result }
{
    let next = apply_in(alloc, schema, step, doc.top(), doc.content())?;
    let known = knows_step(alloc, schema, step)?;
    if !known {
        return Err(Failed::Reason(Reason::NotInSchema));
    }
    Ok(next)
}

/// What the step makes of the document with the top node's type, attributes and marks and this content, or the first reason of
/// those that look at the document.
fn apply_in(
    alloc: Global,
    schema: &Schema,
    step: &Step,
    top: &Node,
    content: &Fragment,
) -> Result<Document, Failed<Reason>>
    requires { Valid (documents_of schema.now.spec) (doc_with top.now content.now) }
    ensures { Answers (made (documents_of schema.now.spec) (step_of step.now) (doc_with top.now content.now)) result }
{
    match step {
        Step::Replace(step) => replace(alloc, schema, top, content, step),
        Step::ReplaceAround(step) => replace_around(alloc, schema, top, content, step),
        Step::Mark(step) => mark_range(alloc, schema, top, content, step),
        Step::NodeMark(step) => mark_node(alloc, schema, top, content, step),
        Step::Attr(step) => set_attr(alloc, schema, top, content, step),
        Step::DocAttr(step) => set_doc_attr(alloc, schema, top, content, step),
    }
}

/// Whether the step's mark is of the schema, or the nodes that are open at the start of its slice are. What else a step names shows
/// in the document.
fn knows_step(alloc: Global, schema: &Schema, step: &Step) -> Result<bool, AllocError>
    ensures { IfOk result (λ b. b ≡ knows_step (documents_of schema.now.spec) (step_of step.now)) }
{
    match step {
        Step::Replace(step) => knows_slice(alloc, schema, &step.slice),
        Step::ReplaceAround(step) => knows_slice(alloc, schema, &step.slice),
        Step::Mark(step) => Ok(knows_marking(schema, &step.marking)),
        Step::NodeMark(step) => Ok(knows_marking(schema, &step.marking)),
        Step::Attr(_) => Ok(true),
        Step::DocAttr(_) => Ok(true),
    }
}

/// Whether the mark that is added or taken away is of the schema.
fn knows_marking(schema: &Schema, marking: &Marking) -> bool
    ensures { result ≡ knows_mark (documents_of schema.now.spec) (mark_in marking.now) }
{
    match marking {
        Marking::Add(mark) => knows_mark(schema, mark),
        Marking::Remove(mark) => knows_mark(schema, mark),
    }
}
