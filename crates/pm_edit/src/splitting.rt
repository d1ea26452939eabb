//! Splitting nodes.
ghost use Rattle.std.specs.Prelude.{◌≡◌, ◌-◌, ◌≤◌, ◌<◌, IfOk};
ghost use Rattle.pm_tokens.specs.Scan.{depth_at};
ghost use Rattle.pm_tokens.specs.Faults.{Valid};
ghost use Rattle.pm_schema.specs.Documents.{documents_of};
ghost use Rattle.pm_edit.specs.Nodes.{split_slice};
ghost use Rattle.pm_edit.specs.Edits.{split};
ghost use Rattle.pm_edit.specs.Ops.{Answers};

use crate::places::{is_position, place_at};
use crate::slices::open_slice;
use pm_change::{MakeError, NoStep};
use pm_fit::push_hollow;
use pm_node::{Document, Fragment};
use pm_resolve::Place;
use pm_schema::Schema;
use pm_slice::Slice;
use pm_step::{ReplaceStep, Step};
use std::alloc::{AllocError, Global};

/// Splits the `depth` innermost nodes around a position: they end there, and nodes with the same types, attributes and marks
/// begin. `Range` comes exactly where the position passes the size, and `NotThere` where `depth` is 0 or fewer nodes are
/// around the position.
/// ProseMirror: `Transform.split`. Neither asks `canSplit`.
pub fn split(
    alloc: Global,
    schema: &Schema,
    doc: &Document,
    pos: u64,
    depth: u64,
) -> Result<Step, MakeError>
    requires { Valid (documents_of schema.now.spec) doc.now }
    ensures { Answers (split doc.now pos depth) result }
{
    let _ = schema;
    if !is_position(doc, pos) {
        return Err(MakeError::NoStep(NoStep::Range));
    }
    if depth == 0 {
        return Err(MakeError::NoStep(NoStep::NotThere));
    }
    let place = place_at(alloc, doc, pos)?;
    let around = place.depth() as u64;
    if depth > around {
        return Err(MakeError::NoStep(NoStep::NotThere));
    }
    let slice = split_slice(alloc, &place, depth as usize)?;
    Ok(Step::Replace(ReplaceStep {
        from: pos,
        to: pos,
        slice,
        structure: true,
    }))
}

/// The innermost nodes around the place without content, twice, with all of them open.
fn split_slice(alloc: Global, place: &Place<'_>, depth: usize) -> Result<Slice, AllocError>
    requires some { 0 < depth }
    requires within { depth ≤ depth_at place.now.doc.tokens place.now.pos }
    requires small { depth ≤ 48 }
    ensures { IfOk result (λ s. s ≡ split_slice place.now.doc place.now.pos (depth_at place.now.doc.tokens place.now.pos - depth) depth) }
{
    let around = place.depth();
    let outer = around - depth;
    let mut content = Fragment::new(alloc);
    push_hollow(alloc, place, outer, &mut content)?;
    push_hollow(alloc, place, outer, &mut content)?;
    let _ = content.size();
    Ok(open_slice(alloc, content, depth))
}
