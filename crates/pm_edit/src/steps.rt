//! The steps of an op.
ghost use Rattle.std.specs.Prelude.{◌∷◌, [], IfOk};
ghost use Rattle.pm_tokens.specs.Faults.{Valid};
ghost use Rattle.pm_schema.specs.Documents.{documents_of};
ghost use Rattle.pm_step.specs.Steps.{step_of};
ghost use Rattle.pm_edit.specs.Ops.{Answers, AnswersOne, AnswersList, Makes, answer_of, steps_of};

use crate::attributes::{set_attr, set_doc_attr};
use crate::edited::Edited;
use crate::fitted::{
    delete, deletion_edited, insert_node, insert_text, node_edited, paste, paste_edited,
    text_edited,
};
use crate::joining::join;
use crate::lifting::lift;
use crate::marking::{add_mark, remove_mark};
use crate::splitting::split;
use crate::typing::set_type;
use crate::wrapping::wrap;
use pm_change::MakeError;
use pm_node::Document;
use pm_ops::Op;
use pm_schema::Schema;
use pm_step::Step;
use std::alloc::Global;

/// The steps of an op on a document: exactly one, or why the op's edit makes none. `Op::Step` gives its step.
pub fn steps_for(
    alloc: Global,
    schema: &Schema,
    doc: &Document,
    op: &Op,
) -> Result<Vec<Step>, MakeError>
    requires { Valid (documents_of schema.now.spec) doc.now }
    ensures { AnswersList (steps_of schema.now doc.now op.now) result }
{
    match step_for(alloc, schema, doc, op) {
        Ok(step) => list_of(alloc, step),
        Err(error) => Err(error),
    }
}

/// The step of an op on a document, and the document that it makes, where the edit has made it; or why the op's edit makes
/// none. An edit that fits something in has made it: text, a slice or a node that is put in, and a range that is taken out.
/// ProseMirror: the methods of `Transform`.
pub fn edit_for(
    alloc: Global,
    schema: &Schema,
    doc: &Document,
    op: &Op,
) -> Result<Edited, MakeError>
    requires { Valid (documents_of schema.now.spec) doc.now }
    ensures steps { AnswersOne (steps_of schema.now doc.now op.now) result }
    ensures doc { IfOk result (Makes (documents_of schema.now.spec) doc.now) }
{
    match op {
        Op::InsertText { from, to, text } => {
            text_edited(alloc, schema, doc, *from, *to, text.as_str())
        }
        Op::Delete { from, to } => deletion_edited(alloc, schema, doc, *from, *to),
        Op::Paste { from, to, slice } => paste_edited(alloc, schema, doc, *from, *to, slice),
        Op::InsertNode { pos, node } => node_edited(alloc, schema, doc, *pos, node),
        _ => match step_for(alloc, schema, doc, op) {
            Ok(step) => Ok(Edited { step, doc: None }),
            Err(error) => Err(error),
        },
    }
}

/// A list of this one step.
fn list_of(alloc: Global, step: Step) -> Result<Vec<Step>, MakeError>
    ensures { AnswersList (Ok (step_of step ∷ [])) result }
{
    let mut steps = Vec::new(alloc);
    steps.push(step)?;
    Ok(steps)
}

/// The step of the op's edit.
fn step_for(alloc: Global, schema: &Schema, doc: &Document, op: &Op) -> Result<Step, MakeError>
    requires { Valid (documents_of schema.now.spec) doc.now }
    ensures { Answers (answer_of schema.now doc.now op.now) result }
{
    match op {
        Op::InsertText { from, to, text } => {
            insert_text(alloc, schema, doc, *from, *to, text.as_str())
        }
        Op::Delete { from, to } => delete(alloc, schema, doc, *from, *to),
        Op::Paste { from, to, slice } => paste(alloc, schema, doc, *from, *to, slice),
        Op::InsertNode { pos, node } => insert_node(alloc, schema, doc, *pos, node),
        Op::Split { pos, depth } => split(alloc, schema, doc, *pos, *depth),
        Op::Join { pos, depth } => join(alloc, schema, doc, *pos, *depth),
        Op::Wrap {
            from,
            to,
            kind,
            attrs,
        } => wrap(alloc, schema, doc, *from, *to, *kind, attrs),
        Op::Lift { pos } => lift(alloc, schema, doc, *pos),
        Op::SetType { pos, kind, attrs } => set_type(alloc, schema, doc, *pos, *kind, attrs),
        Op::AddMark { from, to, mark } => add_mark(alloc, schema, doc, *from, *to, mark),
        Op::RemoveMark { from, to, mark } => remove_mark(alloc, schema, doc, *from, *to, mark),
        Op::SetAttr { pos, attr, value } => set_attr(alloc, schema, doc, *pos, attr, value),
        Op::SetDocAttr { attr, value } => set_doc_attr(alloc, schema, doc, attr, value),
        Op::Step(step) => Ok(step.copy(alloc)?),
    }
}
