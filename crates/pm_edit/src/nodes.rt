//! The node that begins at a position.
ghost use Rattle.std.specs.Prelude.{◌≡◌, ◌+◌, ◌-◌, ◌≤◌, ◌<◌, ◌^◌, true, length, IfOk};
ghost use Rattle.pm_meaning.specs.Steps.{ReplaceAround};
ghost use Rattle.pm_node.specs.Documents.{doc_of};
ghost use Rattle.pm_step.specs.Steps.{step_of};
ghost use Rattle.pm_edit.specs.Nodes.{behind};
ghost use Rattle.pm_edit.specs.Found.{Finds};

use crate::places::place_at;
use pm_node::{Document, Node};
use pm_slice::Slice;
use pm_step::{ReplaceAroundStep, Step};
use std::alloc::{AllocError, Global};

/// A node that is no leaf, and the position after it.
#[derive(Drop)]
pub struct Found<'a> {
    pub node: &'a Node,
    pub end: u64,
}

impl Found<'_> {
    /// The step that puts a slice around the node's content and in place of its open and close, where the node begins at
    /// `pos`. The first `insert` tokens of the slice come before the content.
    pub fn replaced(&self, pos: u64, slice: Slice, insert: u64) -> Step
        requires { self.now.end ≡ behind pos (doc_of self.now.node.now) }
        ensures { step_of result ≡ ReplaceAround pos self.now.end (pos + 1) (self.now.end - 1) slice insert true }
    {
        let end = self.end;
        let gap_to = end - 1;
        let gap_from = pos + 1;
        Step::ReplaceAround(ReplaceAroundStep {
            from: pos,
            to: end,
            gap_from,
            gap_to,
            slice,
            insert,
            structure: true,
        })
    }
}

/// The node that begins at the position with an open, if one does: the innermost one around the next position, if its content
/// starts there.
pub fn node_at<'a>(
    alloc: Global,
    doc: &'a Document,
    pos: u64,
) -> Result<Option<Found<'a>>, AllocError>
    requires within { pos ≤ length doc.now.tokens }
    requires small { length doc.now.tokens < 2 ^ 32 }
    ensures { IfOk result (λ o. Finds doc.now pos o) }
{
    let size = doc.size() as u64;
    if pos == size {
        return Ok(None);
    }
    let next = pos + 1;
    let place = place_at(alloc, doc, next)?;
    let depth = place.depth();
    let start = place.start(depth) as u64;
    if start != next {
        return Ok(None);
    }
    let node = place.node(depth);
    let inner_end = place.end(depth) as u64;
    Ok(Some(Found {
        node,
        end: inner_end + 1,
    }))
}
