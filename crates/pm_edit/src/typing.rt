//! Another type for a node.
ghost use Rattle.pm_tokens.specs.Faults.{Valid};
ghost use Rattle.pm_schema.specs.Documents.{documents_of};
ghost use Rattle.pm_edit.specs.Edits.{set_type};
ghost use Rattle.pm_edit.specs.Ops.{Answers};

use crate::empty::{empty_node, is_leaf};
use crate::nodes::node_at;
use crate::places::is_position;
use pm_attrs::Attrs;
use pm_auto::TypeId;
use pm_change::{MakeError, NoStep};
use pm_marks::Same;
use pm_node::Document;
use pm_schema::Schema;
use pm_step::Step;
use std::alloc::Global;

/// Gives the node that begins at a position another type and attributes; it keeps its marks and its content. `Range` comes
/// exactly where the position passes the size, and `NotThere` where no node begins there, or a leaf or a text does, or the
/// type is a leaf or none of the schema's.
/// ProseMirror: `Transform.setNodeMarkup` of a node that is no leaf.
pub fn set_type(
    alloc: Global,
    schema: &Schema,
    doc: &Document,
    pos: u64,
    kind: TypeId,
    attrs: &Attrs,
) -> Result<Step, MakeError>
    requires { Valid (documents_of schema.now.spec) doc.now }
    ensures { Answers (set_type schema.now doc.now pos kind attrs.now) result }
{
    if !is_position(doc, pos) {
        return Err(MakeError::NoStep(NoStep::Range));
    }
    if is_leaf(schema, kind) {
        return Err(MakeError::NoStep(NoStep::NotThere));
    }
    match node_at(alloc, doc, pos)? {
        Some(found) => {
            let marks = found.node.marks.copy(alloc)?;
            let slice = empty_node(alloc, kind, attrs, marks)?;
            Ok(found.replaced(pos, slice, 1))
        }
        None => Err(MakeError::NoStep(NoStep::NotThere)),
    }
}
