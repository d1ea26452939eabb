//! The marks at a place.
ghost use Rattle.std.specs.Prelude.{◌≡◌, ◌≤◌, ◌||◌, None, length, IfOk};
ghost use Rattle.pm_marks.specs.Sets.{has};
ghost use Rattle.pm_attrs.specs.Attrs.{same_attrs};
ghost use Rattle.pm_tokens.specs.Kids.{children};
ghost use Rattle.pm_node.specs.Trees.{list_tokens, IsNormal, EachWhole};
ghost use Rattle.pm_resolve.specs.Places.{beside, marks_beside, going_on, inclusive_in};

use pm_attrs::Attrs;
use pm_marks::{Mark, MarkSet};
use pm_node::Children;
use pm_schema::Schema;
use std::alloc::{AllocError, Global};

/// The marks at a position among children.
pub fn marks_among(
    alloc: Global,
    schema: &Schema,
    nodes: &Children<'_>,
    pos: usize,
) -> Result<MarkSet<Attrs>, AllocError>
    requires within { pos ≤ length (list_tokens nodes.now) }
    requires normal { IsNormal nodes.now }
    requires whole { EachWhole nodes.now }
    ensures { IfOk result (λ m. m ≡ marks_beside (inclusive_in schema.now.spec) (beside None pos (children (list_tokens nodes.now)))) }
{
    let none = MarkSet::empty(alloc);
    let found = nodes.find(pos);
    let index = found.index;
    if found.rest > 0 {
        return nodes.get(index).marks.copy(alloc);
    }
    if index == 0 {
        if nodes.len() == 0 {
            return Ok(none);
        }
        return going_on(alloc, schema, &nodes.get(0).marks, &none);
    }
    let before = &nodes.get(index - 1).marks;
    if index == nodes.len() {
        return going_on(alloc, schema, before, &none);
    }
    going_on(alloc, schema, before, &nodes.get(index).marks)
}

/// The marks without those whose type is not inclusive and which are not among the other ones.
fn going_on(
    alloc: Global,
    schema: &Schema,
    marks: &MarkSet<Attrs>,
    other: &MarkSet<Attrs>,
) -> Result<MarkSet<Attrs>, AllocError>
    ensures { IfOk result (λ m. m ≡ going_on (inclusive_in schema.now.spec) other.now marks.now) }
{
    let mut left = marks.copy(alloc)?;
    for mark in marks.marks() {
        if !goes_on(schema, mark, other) {
            left = left.remove(alloc, mark)?;
        }
    }
    Ok(left)
}

/// Whether the mark's type is inclusive, or the mark is among the other ones.
fn goes_on(schema: &Schema, mark: &Mark<Attrs>, other: &MarkSet<Attrs>) -> bool
    ensures { result ≡ (inclusive_in schema.now.spec mark.now.kind || has same_attrs other.now mark.now) }
{
    (mark.kind < schema.mark_count() && schema.inclusive(mark.kind)) || other.has(mark)
}
