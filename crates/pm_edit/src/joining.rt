//! Joining nodes.
ghost use Rattle.std.specs.Prelude.{◌≡◌, ◌+◌, ◌≤◌, true, length, IfOk, IsTrue};
ghost use Rattle.pm_tokens.specs.Scan.{is_whole};
ghost use Rattle.pm_tokens.specs.Faults.{Valid};
ghost use Rattle.pm_schema.specs.Documents.{documents_of};
ghost use Rattle.pm_edit.specs.Nodes.{meet};
ghost use Rattle.pm_edit.specs.Edits.{join};
ghost use Rattle.pm_edit.specs.Ops.{Answers};

use crate::places::{depth_at, is_position};
use pm_change::{MakeError, NoStep};
use pm_node::Document;
use pm_schema::Schema;
use pm_slice::Slice;
use pm_step::{ReplaceStep, Step};
use std::alloc::{AllocError, Global};

/// Joins the nodes that end at a position with those that begin there, `depth` of them within one another. `Range` comes
/// exactly where the position passes the size, and `NotThere` where `depth` is 0, or fewer nodes end there, or fewer begin.
/// ProseMirror: `Transform.join`. Neither asks `canJoin`.
pub fn join(
    alloc: Global,
    schema: &Schema,
    doc: &Document,
    pos: u64,
    depth: u64,
) -> Result<Step, MakeError>
    requires { Valid (documents_of schema.now.spec) doc.now }
    ensures { Answers (join doc.now pos depth) result }
{
    let _ = schema;
    if !is_position(doc, pos) {
        return Err(MakeError::NoStep(NoStep::Range));
    }
    if depth == 0 {
        return Err(MakeError::NoStep(NoStep::NotThere));
    }
    let met = meet(alloc, doc, pos, depth)?;
    if !met {
        return Err(MakeError::NoStep(NoStep::NotThere));
    }
    Ok(Step::Replace(ReplaceStep {
        from: pos - depth,
        to: pos + depth,
        slice: Slice::empty(alloc),
        structure: true,
    }))
}

/// Whether so many closes stand before the position, and so many opens after it: as many nodes more are around the positions
/// so far before and after.
fn meet(alloc: Global, doc: &Document, pos: u64, depth: u64) -> Result<bool, AllocError>
    requires whole { is_whole doc.now.tokens ≡ true }
    requires within { pos ≤ length doc.now.tokens }
    ensures meet { IfOk result (λ b. b ≡ meet doc.now pos depth) }
    ensures before { IfOk result (λ b. IsTrue b → depth ≤ pos) }
    ensures behind { IfOk result (λ b. IsTrue b → pos + depth ≤ length doc.now.tokens) }
{
    let size = doc.size() as u64;
    if depth > pos {
        return Ok(false);
    }
    if depth > size - pos {
        return Ok(false);
    }
    let here = depth_at(alloc, doc, pos)?;
    let before = depth_at(alloc, doc, pos - depth)?;
    let behind = depth_at(alloc, doc, pos + depth)?;
    Ok(before == here + depth && behind == here + depth)
}
