//! Marks of a range.
ghost use Rattle.pm_tokens.specs.Faults.{Valid};
ghost use Rattle.pm_schema.specs.Documents.{documents_of};
ghost use Rattle.pm_edit.specs.Edits.{add_mark, remove_mark};
ghost use Rattle.pm_edit.specs.Ops.{Answers};

use crate::places::in_range;
use pm_attrs::Attrs;
use pm_change::{MakeError, NoStep};
use pm_marks::Mark;
use pm_node::Document;
use pm_schema::Schema;
use pm_step::{MarkStep, Marking, Step};
use std::alloc::Global;

/// Adds a mark to what is inline from..to. `Range` comes exactly where not from <= to <= size, and `NotThere` where the range
/// is empty.
/// ProseMirror: `Transform.addMark`, which may take several steps.
pub fn add_mark(
    alloc: Global,
    schema: &Schema,
    doc: &Document,
    from: u64,
    to: u64,
    mark: &Mark<Attrs>,
) -> Result<Step, MakeError>
    requires { Valid (documents_of schema.now.spec) doc.now }
    ensures { Answers (add_mark doc.now from to mark.now) result }
{
    let _ = schema;
    if !in_range(doc, from, to) {
        return Err(MakeError::NoStep(NoStep::Range));
    }
    if from == to {
        return Err(MakeError::NoStep(NoStep::NotThere));
    }
    let marking = Marking::Add(mark.copy(alloc)?);
    Ok(Step::Mark(MarkStep { from, to, marking }))
}

/// Takes a mark from what is inline from..to. `Range` comes exactly where not from <= to <= size, and `NotThere` where the
/// range is empty.
/// ProseMirror: `Transform.removeMark`, which may take several steps.
pub fn remove_mark(
    alloc: Global,
    schema: &Schema,
    doc: &Document,
    from: u64,
    to: u64,
    mark: &Mark<Attrs>,
) -> Result<Step, MakeError>
    requires { Valid (documents_of schema.now.spec) doc.now }
    ensures { Answers (remove_mark doc.now from to mark.now) result }
{
    let _ = schema;
    if !in_range(doc, from, to) {
        return Err(MakeError::NoStep(NoStep::Range));
    }
    if from == to {
        return Err(MakeError::NoStep(NoStep::NotThere));
    }
    let marking = Marking::Remove(mark.copy(alloc)?);
    Ok(Step::Mark(MarkStep { from, to, marking }))
}
