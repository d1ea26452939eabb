//! Putting a node around a range.
ghost use Rattle.pm_tokens.specs.Faults.{Valid};
ghost use Rattle.pm_schema.specs.Documents.{documents_of};
ghost use Rattle.pm_edit.specs.Edits.{wrap};
ghost use Rattle.pm_edit.specs.Ops.{Answers};

use crate::empty::{empty_node, is_leaf};
use crate::places::{in_range, is_balanced};
use pm_attrs::Attrs;
use pm_auto::TypeId;
use pm_change::{MakeError, NoStep};
use pm_marks::MarkSet;
use pm_node::Document;
use pm_schema::Schema;
use pm_step::{ReplaceAroundStep, Step};
use std::alloc::Global;

/// Puts a node of the type, without marks, around from..to. `Range` comes exactly where not from <= to <= size, and `NotThere`
/// where the range is empty, or is not a whole number of nodes, or the type is a leaf or none of the schema's.
/// ProseMirror: `Transform.wrap` in one node. Neither asks `findWrapping`.
pub fn wrap(
    alloc: Global,
    schema: &Schema,
    doc: &Document,
    from: u64,
    to: u64,
    kind: TypeId,
    attrs: &Attrs,
) -> Result<Step, MakeError>
    requires { Valid (documents_of schema.now.spec) doc.now }
    ensures { Answers (wrap schema.now doc.now from to kind attrs.now) result }
{
    if !in_range(doc, from, to) {
        return Err(MakeError::NoStep(NoStep::Range));
    }
    if from == to {
        return Err(MakeError::NoStep(NoStep::NotThere));
    }
    let leaf = is_leaf(schema, kind);
    if leaf {
        return Err(MakeError::NoStep(NoStep::NotThere));
    }
    let balanced = is_balanced(alloc, doc, from, to)?;
    if !balanced {
        return Err(MakeError::NoStep(NoStep::NotThere));
    }
    let slice = empty_node(alloc, kind, attrs, MarkSet::empty(alloc))?;
    Ok(Step::ReplaceAround(ReplaceAroundStep {
        from,
        to,
        gap_from: from,
        gap_to: to,
        slice,
        insert: 1,
        structure: true,
    }))
}
