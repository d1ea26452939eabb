//! Steps that replace what is around a gap.
ghost use Rattle.std.specs.Prelude.{◌≡◌, ◌+◌, ◌-◌, ◌<◌, ◌≤◌, ◌^◌, ◌∷◌, ◌&&◌, [], true, nat_le, length, IfOk};
ghost use Rattle.pm_change.specs.Failing.{Answers};
ghost use Rattle.pm_tokens.specs.Faults.{Valid};
ghost use Rattle.pm_tokens.specs.Scan.{parts_pair, part};
ghost use Rattle.pm_tokens.specs.Schemas.{compatible};
ghost use Rattle.pm_tokens.specs.Slices.{is_slice, slice_size, slice_tokens, spliced_around};
ghost use Rattle.pm_meaning.specs.Outcomes.{in_order, keeps_structure, made, parts_no_pair};
ghost use Rattle.pm_node.specs.Documents.{doc_with};
ghost use Rattle.pm_schema.specs.Documents.{documents_of};
ghost use Rattle.pm_replace.specs.Splices.{Joins, Splices, spliced_outcome};
ghost use Rattle.pm_step.specs.Steps.{step_of};
ghost use Rattle.pm_apply.specs.Around.{IsPlaced};

use crate::sides::{is_whole, keeps_structure, sides_fit};
use pm_build::{Builder, OpenTypes, Refused, parts_pair};
use pm_change::Failed;
use pm_meaning::Reason;
use pm_node::{Difference, Document, Fragment, Node};
use pm_replace::{checked_change, failed};
use pm_schema::Schema;
use pm_slice::Slice;
use pm_step::{ReplaceAroundStep, Step};
use std::alloc::{AllocError, Global};

/// A range, the gap in it that is kept, and how many tokens of a slice come before the gap.
#[derive(Clone, Copy)]
pub struct Ends {
    pub from: usize,
    pub to: usize,
    pub gap_from: usize,
    pub gap_to: usize,
    pub insert: usize,
}

/// The document with the top node's head and this content, with what is around the step's gap replaced by its slice, or the first
/// reason why not, in the order Range, Structure, Gap, Depth, Pair, Join, Large, Deep, Content.
pub fn replace_around(
    alloc: Global,
    schema: &Schema,
    top: &Node,
    content: &Fragment,
    step: &ReplaceAroundStep,
) -> Result<Document, Failed<Reason>>
    requires { Valid (documents_of schema.now.spec) (doc_with top.now content.now) }
    ensures { Answers (made (documents_of schema.now.spec) (step_of (Step.ReplaceAround step.now)) (doc_with top.now content.now)) result }
{
    let ends = Ends {
        from: step.from as usize,
        to: step.to as usize,
        gap_from: step.gap_from as usize,
        gap_to: step.gap_to as usize,
        insert: step.insert as usize,
    };
    let slice = &step.slice;
    let ordered = are_ordered(content, ends, slice);
    if !ordered {
        return Err(Failed::Reason(Reason::Range));
    }
    let keeps = keeps_around(alloc, content, ends, step.structure)?;
    if !keeps {
        return Err(Failed::Reason(Reason::Structure));
    }
    let whole = is_whole(alloc, content, ends.gap_from, ends.gap_to)?;
    if !whole {
        return Err(Failed::Reason(Reason::Gap));
    }
    let fits = sides_fit(content, ends.from, ends.to, slice);
    if !fits {
        return Err(Failed::Reason(Reason::Depth));
    }
    let unparted = part_no_pair(content, ends, slice);
    if !unparted {
        return Err(Failed::Reason(Reason::Pair));
    }
    put_around(alloc, schema, top, content, ends, slice)
}

/// Whether the positions are in order within the content, and `insert` does not pass the slice.
fn are_ordered(content: &Fragment, ends: Ends, slice: &Slice) -> bool
    ensures ordered { result ≡ (in_order (ends.from ∷ ends.gap_from ∷ ends.gap_to ∷ ends.to ∷ []) (length content.now)
        && nat_le ends.insert (slice_size slice.now)) }
    ensures slice { is_slice slice.now ≡ true }
{
    let size = content.size();
    let added = slice.size();
    ends.from <= ends.gap_from
        && ends.gap_from <= ends.gap_to
        && ends.gap_to <= ends.to
        && ends.to <= size
        && ends.insert <= added
}

/// Whether the step may overwrite what is before the gap and what is after it: it has `structure` only where both are closes
/// and then opens.
fn keeps_around(
    alloc: Global,
    content: &Fragment,
    ends: Ends,
    structure: bool,
) -> Result<bool, AllocError>
    requires before { ends.from ≤ ends.gap_from }
    requires gap { ends.gap_from ≤ ends.gap_to }
    requires behind { ends.gap_to ≤ ends.to }
    requires within { ends.to ≤ length content.now }
    ensures { IfOk result (λ b. b ≡ (keeps_structure structure (part ends.from ends.gap_from content.now)
        && keeps_structure structure (part ends.gap_to ends.to content.now))) }
{
    let before = keeps_structure(alloc, content, ends.from, ends.gap_from, structure)?;
    let behind = keeps_structure(alloc, content, ends.gap_to, ends.to, structure)?;
    Ok(before && behind)
}

/// Whether none of the positions parts a pair, and the slice's first `insert` tokens do not end in one.
fn part_no_pair(content: &Fragment, ends: Ends, slice: &Slice) -> bool
    requires { ends.insert ≤ slice_size slice.now }
    ensures { result ≡ (parts_no_pair content.now (ends.from ∷ ends.gap_from ∷ ends.gap_to ∷ ends.to ∷ [])
        && parts_no_pair (slice_tokens slice.now) (ends.insert ∷ [])) }
{
    !parts_pair(content, ends.from)
        && !parts_pair(content, ends.gap_from)
        && !parts_pair(content, ends.gap_to)
        && !parts_pair(content, ends.to)
        && !parts_pair_in(slice, ends.insert)
}

/// Whether the place after the slice's first `insert` tokens parts a pair.
fn parts_pair_in(slice: &Slice, insert: usize) -> bool
    requires { insert ≤ slice_size slice.now }
    ensures { result ≡ parts_pair (slice_tokens slice.now) insert }
{
    let _ = slice.size();
    let content = slice.content();
    let _ = content.size();
    parts_pair(content, slice.open_start() + insert)
}

/// The same where the tests before the join are passed. A result that is too large is not built, since only its joins are asked
/// for; any other is checked by the node around the range where that is enough.
fn put_around(
    alloc: Global,
    schema: &Schema,
    top: &Node,
    content: &Fragment,
    ends: Ends,
    slice: &Slice,
) -> Result<Document, Failed<Reason>>
    requires valid { Valid (documents_of schema.now.spec) (doc_with top.now content.now) }
    requires placed { IsPlaced content.now ends slice.now }
    ensures { Answers (spliced_outcome (documents_of schema.now.spec) (doc_with top.now content.now)
        (spliced_around content.now ends.from ends.to ends.gap_from ends.gap_to slice.now ends.insert)) result }
{
    let size = content.size();
    let added = slice.size();
    let kept = ends.from + (ends.gap_to - ends.gap_from) + (size - ends.to);
    let total = kept + added;
    if total > schema.max_size() {
        return match join_around(alloc, schema, content, ends, slice) {
            Ok(()) => Err(Failed::Reason(Reason::Large)),
            Err(refused) => Err(failed(refused)),
        };
    }
    match splice_around(alloc, schema, content, ends, slice) {
        Ok(made) => {
            let change = Difference {
                from: ends.from,
                to: ends.to,
                new_to: ends.from + (ends.gap_to - ends.gap_from) + added,
            };
            checked_change(alloc, schema, top, content, made, change)
        }
        Err(refused) => Err(failed(refused)),
    }
}

/// The tokens before the range, the first `insert` ones of the slice, those of the gap, the other ones of the slice, and those
/// after the range. It is refused exactly where a close meets no open node of a compatible type.
fn splice_around(
    alloc: Global,
    schema: &Schema,
    content: &Fragment,
    ends: Ends,
    slice: &Slice,
) -> Result<Fragment, Refused>
    requires placed { IsPlaced content.now ends slice.now }
    requires room { ends.from + (ends.gap_to - ends.gap_from) + (length content.now - ends.to) + slice_size slice.now < 2 ^ 32 }
    ensures { Splices (compatible (documents_of schema.now.spec))
        (spliced_around content.now ends.from ends.to ends.gap_from ends.gap_to slice.now ends.insert) result }
{
    let size = content.size();
    let inner = slice.content();
    let _ = inner.size();
    let start = slice.open_start();
    let added = slice.size();
    let middle = start + ends.insert;
    let end = start + added;
    let mut builder = Builder::new(alloc);
    builder.feed(alloc, schema, content, 0, ends.from)?;
    builder.feed(alloc, schema, inner, start, middle)?;
    builder.feed(alloc, schema, content, ends.gap_from, ends.gap_to)?;
    builder.feed(alloc, schema, inner, middle, end)?;
    builder.feed(alloc, schema, content, ends.to, size)?;
    Ok(builder.finish())
}

/// Whether the same list joins, told without its tokens.
fn join_around(
    alloc: Global,
    schema: &Schema,
    content: &Fragment,
    ends: Ends,
    slice: &Slice,
) -> Result<(), Refused>
    requires { ends.insert ≤ slice_size slice.now }
    ensures { Joins (compatible (documents_of schema.now.spec))
        (spliced_around content.now ends.from ends.to ends.gap_from ends.gap_to slice.now ends.insert) result }
{
    let size = content.size();
    let inner = slice.content();
    let _ = inner.size();
    let start = slice.open_start();
    let added = slice.size();
    let middle = start + ends.insert;
    let end = start + added;
    let mut open = OpenTypes::new(alloc);
    open.cross(schema, content, 0, ends.from)?;
    open.cross(schema, inner, start, middle)?;
    open.cross(schema, content, ends.gap_from, ends.gap_to)?;
    open.cross(schema, inner, middle, end)?;
    open.cross(schema, content, ends.to, size)?;
    Ok(())
}
