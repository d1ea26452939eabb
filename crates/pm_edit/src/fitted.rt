//! Text, slices and nodes that are fitted in.
ghost use Rattle.std.specs.Prelude.{◌≡◌, ◌≤◌, length, Some, IfOk};
ghost use Rattle.pm_tokens.specs.Faults.{Valid};
ghost use Rattle.pm_text.specs.Units.{utf16};
ghost use Rattle.pm_node.specs.Trees.{node_tokens};
ghost use Rattle.pm_schema.specs.Documents.{documents_of};
ghost use Rattle.pm_resolve.specs.Places.{marks_at, inclusive_in};
ghost use Rattle.pm_fit.specs.Fits.{fit_step};
ghost use Rattle.pm_edit.specs.Nodes.{text_slice};
ghost use Rattle.pm_edit.specs.Edits.{fitted, insert_text, delete, paste, insert_node};
ghost use Rattle.pm_edit.specs.Ops.{Answers, AnswersEdited, Makes};

use crate::edited::{Edited, step_alone};
use crate::places::{in_range, is_position, place_at};
use crate::slices::{node_slice, text_slice};
use pm_change::{MakeError, NoStep};
use pm_fit::{Fitted, fit};
use pm_node::{Document, Node, Units};
use pm_schema::Schema;
use pm_slice::Slice;
use pm_step::Step;
use std::alloc::Global;

/// Puts a text in place of from..to, with the marks that stand at `from`; an empty text takes the range out. `Range` comes
/// exactly where not from <= to <= size, `NotThere` where the range and the text are empty, and `NoFit` where nothing fits.
/// ProseMirror: `Transaction.insertText`, which may take other marks where it overwrites a range.
pub fn insert_text(
    alloc: Global,
    schema: &Schema,
    doc: &Document,
    from: u64,
    to: u64,
    text: &str,
) -> Result<Step, MakeError>
    requires { Valid (documents_of schema.now.spec) doc.now }
    ensures { Answers (insert_text schema.now doc.now from to (utf16 text.now)) result }
{
    step_alone(text_edited(alloc, schema, doc, from, to, text))
}

/// Takes from..to out. `Range` comes exactly where not from <= to <= size, `NotThere` where the range is empty, and `NoFit`
/// where the nodes around its ends can't be joined or closed.
/// ProseMirror: `Transform.delete`.
pub fn delete(
    alloc: Global,
    schema: &Schema,
    doc: &Document,
    from: u64,
    to: u64,
) -> Result<Step, MakeError>
    requires { Valid (documents_of schema.now.spec) doc.now }
    ensures { Answers (delete schema.now doc.now from to) result }
{
    step_alone(deletion_edited(alloc, schema, doc, from, to))
}

/// Puts a slice in place of from..to, fitted to the place. `Range` comes exactly where not from <= to <= size, `NotThere`
/// where the range and the slice are empty, and `NoFit` where nothing fits.
/// ProseMirror: `Transform.replace`.
pub fn paste(
    alloc: Global,
    schema: &Schema,
    doc: &Document,
    from: u64,
    to: u64,
    slice: &Slice,
) -> Result<Step, MakeError>
    requires { Valid (documents_of schema.now.spec) doc.now }
    ensures { Answers (paste schema.now doc.now from to slice.now) result }
{
    step_alone(paste_edited(alloc, schema, doc, from, to, slice))
}

/// Puts a node in at a position, fitted to the place. `Range` comes exactly where the position passes the size, and `NoFit`
/// where nothing fits; `NotThere` never comes.
/// ProseMirror: `Transform.insert` of one node.
pub fn insert_node(
    alloc: Global,
    schema: &Schema,
    doc: &Document,
    pos: u64,
    node: &Node,
) -> Result<Step, MakeError>
    requires { Valid (documents_of schema.now.spec) doc.now }
    ensures { Answers (insert_node schema.now doc.now pos (node_tokens node.now)) result }
{
    step_alone(node_edited(alloc, schema, doc, pos, node))
}

/// As `insert_text`, with the document that the step makes.
pub fn text_edited(
    alloc: Global,
    schema: &Schema,
    doc: &Document,
    from: u64,
    to: u64,
    text: &str,
) -> Result<Edited, MakeError>
    requires { Valid (documents_of schema.now.spec) doc.now }
    ensures step { AnswersEdited (insert_text schema.now doc.now from to (utf16 text.now)) result }
    ensures doc { IfOk result (Makes (documents_of schema.now.spec) doc.now) }
{
    if !in_range(doc, from, to) {
        return Err(MakeError::NoStep(NoStep::Range));
    }
    let units = Units::of_text(alloc, text)?;
    if from == to && units.len() == 0 {
        return Err(MakeError::NoStep(NoStep::NotThere));
    }
    fit_text(alloc, schema, doc, from, to, &units)
}

/// As `delete`, with the document that the step makes.
pub fn deletion_edited(
    alloc: Global,
    schema: &Schema,
    doc: &Document,
    from: u64,
    to: u64,
) -> Result<Edited, MakeError>
    requires { Valid (documents_of schema.now.spec) doc.now }
    ensures step { AnswersEdited (delete schema.now doc.now from to) result }
    ensures doc { IfOk result (Makes (documents_of schema.now.spec) doc.now) }
{
    if !in_range(doc, from, to) {
        return Err(MakeError::NoStep(NoStep::Range));
    }
    if from == to {
        return Err(MakeError::NoStep(NoStep::NotThere));
    }
    fit_in(alloc, schema, doc, from, to, &Slice::empty(alloc))
}

/// As `paste`, with the document that the step makes.
pub fn paste_edited(
    alloc: Global,
    schema: &Schema,
    doc: &Document,
    from: u64,
    to: u64,
    slice: &Slice,
) -> Result<Edited, MakeError>
    requires { Valid (documents_of schema.now.spec) doc.now }
    ensures step { AnswersEdited (paste schema.now doc.now from to slice.now) result }
    ensures doc { IfOk result (Makes (documents_of schema.now.spec) doc.now) }
{
    if !in_range(doc, from, to) {
        return Err(MakeError::NoStep(NoStep::Range));
    }
    if from == to && slice.size() == 0 {
        return Err(MakeError::NoStep(NoStep::NotThere));
    }
    fit_in(alloc, schema, doc, from, to, slice)
}

/// As `insert_node`, with the document that the step makes.
pub fn node_edited(
    alloc: Global,
    schema: &Schema,
    doc: &Document,
    pos: u64,
    node: &Node,
) -> Result<Edited, MakeError>
    requires { Valid (documents_of schema.now.spec) doc.now }
    ensures step { AnswersEdited (insert_node schema.now doc.now pos (node_tokens node.now)) result }
    ensures doc { IfOk result (Makes (documents_of schema.now.spec) doc.now) }
{
    if !is_position(doc, pos) {
        return Err(MakeError::NoStep(NoStep::Range));
    }
    let slice = node_slice(alloc, node)?;
    fit_in(alloc, schema, doc, pos, pos, &slice)
}

/// The step that fits a text in, with the marks at `from`, or `NoFit`.
fn fit_text(
    alloc: Global,
    schema: &Schema,
    doc: &Document,
    from: u64,
    to: u64,
    units: &Units,
) -> Result<Edited, MakeError>
    requires valid { Valid (documents_of schema.now.spec) doc.now }
    requires order { from ≤ to }
    requires within { to ≤ length doc.now.tokens }
    ensures step { AnswersEdited (fitted (fit_step schema.now doc.now from to (text_slice (marks_at (inclusive_in schema.now.spec) doc.now from) units.now))) result }
    ensures doc { IfOk result (Makes (documents_of schema.now.spec) doc.now) }
{
    let place = place_at(alloc, doc, from)?;
    let marks = place.marks(alloc, schema)?;
    let slice = text_slice(alloc, &marks, units)?;
    fit_in(alloc, schema, doc, from, to, &slice)
}

/// The step that fits the slice in, or `NoFit`.
fn fit_in(
    alloc: Global,
    schema: &Schema,
    doc: &Document,
    from: u64,
    to: u64,
    slice: &Slice,
) -> Result<Edited, MakeError>
    requires valid { Valid (documents_of schema.now.spec) doc.now }
    requires order { from ≤ to }
    requires within { to ≤ length doc.now.tokens }
    ensures step { AnswersEdited (fitted (fit_step schema.now doc.now from to slice.now)) result }
    ensures doc { IfOk result (Makes (documents_of schema.now.spec) doc.now) }
{
    match fit(alloc, schema, doc, from, to, slice)? {
        Some(fitted) => Ok(edited_of(fitted)),
        None => Err(MakeError::NoStep(NoStep::NoFit)),
    }
}

/// What fits, as an edit's step with its document.
fn edited_of(fitted: Fitted) -> Edited
    ensures step { result.step ≡ fitted.step }
    ensures doc { result.doc ≡ Some fitted.doc }
{
    let Fitted { step, doc } = fitted;
    Edited {
        step,
        doc: Some(doc),
    }
}
