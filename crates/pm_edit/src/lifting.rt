//! Taking a node away from around its content.
ghost use Rattle.pm_tokens.specs.Faults.{Valid};
ghost use Rattle.pm_schema.specs.Documents.{documents_of};
ghost use Rattle.pm_edit.specs.Edits.{lift};
ghost use Rattle.pm_edit.specs.Ops.{Answers};

use crate::nodes::node_at;
use crate::places::is_position;
use pm_change::{MakeError, NoStep};
use pm_node::Document;
use pm_schema::Schema;
use pm_slice::Slice;
use pm_step::Step;
use std::alloc::Global;

/// Puts the content of the node that begins at a position in its place. `Range` comes exactly where the position passes the
/// size, and `NotThere` where no node begins there, or a leaf or a text does.
/// ProseMirror: `Transform.lift` of the whole content of one node, by one level. Neither asks `liftTarget`.
pub fn lift(alloc: Global, schema: &Schema, doc: &Document, pos: u64) -> Result<Step, MakeError>
    requires { Valid (documents_of schema.now.spec) doc.now }
    ensures { Answers (lift doc.now pos) result }
{
    let _ = schema;
    if !is_position(doc, pos) {
        return Err(MakeError::NoStep(NoStep::Range));
    }
    match node_at(alloc, doc, pos)? {
        Some(found) => Ok(found.replaced(pos, Slice::empty(alloc), 0)),
        None => Err(MakeError::NoStep(NoStep::NotThere)),
    }
}
