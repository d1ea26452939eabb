//! The steps that take a replaceAround back.
ghost use Rattle.std.specs.Prelude.{◌≡◌, ◌≤◌, ◌&&◌, true, [], length, take, drop, IfOk};
ghost use Rattle.pm_tokens.specs.Scan.{closes_then_opens, is_whole, joins, part, plain};
ghost use Rattle.pm_tokens.specs.Schemas.{compatible};
ghost use Rattle.pm_tokens.specs.Slices.{cut_around, depths_fit, slice_size, slice_tokens, spliced};
ghost use Rattle.pm_meaning.specs.Inverses.{around_back};
ghost use Rattle.pm_node.specs.Documents.{doc_with};
ghost use Rattle.pm_schema.specs.Documents.{documents_of};
ghost use Rattle.pm_slice.specs.Sides.{no_slice};
ghost use Rattle.pm_step.specs.Steps.{step_of};
ghost use Rattle.pm_apply.specs.Around.{ends_of, IsPlaced};

use crate::around::Ends;
use crate::sides::is_structure;
use pm_build::Refused;
use pm_node::{Fragment, Node};
use pm_replace::splice;
use pm_schema::Schema;
use pm_slice::Slice;
use pm_step::{ReplaceAroundStep, Step};
use pm_view::view_content;
use std::alloc::{AllocError, Global};

/// The step that puts what stands around the gap back in place of the slice. It has `structure` where the step had it and both
/// parts of the slice are closes followed by opens.
pub fn around_back(
    alloc: Global,
    schema: &Schema,
    top: &Node,
    content: &Fragment,
    step: &ReplaceAroundStep,
) -> Result<Step, AllocError>
    requires { IsPlaced content.now (ends_of step.now) step.now.slice }
    ensures { IfOk result (λ s. step_of s ≡ around_back (doc_with top.now content.now)
        step.now.from step.now.to step.now.gap_from step.now.gap_to step.now.slice step.now.insert step.now.structure) }
{
    let ends = Ends {
        from: step.from as usize,
        to: step.to as usize,
        gap_from: step.gap_from as usize,
        gap_to: step.gap_to as usize,
        insert: step.insert as usize,
    };
    let slice = &step.slice;
    let _ = content.size();
    let gap = ends.gap_to - ends.gap_from;
    let kept = step.structure && inserts_structure(alloc, slice, ends.insert)?;
    let cut = cut_around(alloc, schema, content, ends)?;
    Ok(Step::ReplaceAround(ReplaceAroundStep {
        from: step.from,
        to: (ends.from + slice.size() + gap) as u64,
        gap_from: (ends.from + ends.insert) as u64,
        gap_to: (ends.from + ends.insert + gap) as u64,
        slice: cut,
        insert: (ends.gap_from - ends.from) as u64,
        structure: kept,
    }))
}

/// Whether both parts of the slice, the first `insert` tokens and the other ones, are closes and then opens.
fn inserts_structure(alloc: Global, slice: &Slice, insert: usize) -> Result<bool, AllocError>
    requires { insert ≤ slice_size slice.now }
    ensures { IfOk result (λ b. b ≡ (closes_then_opens (take insert (slice_tokens slice.now))
        && closes_then_opens (drop insert (slice_tokens slice.now)))) }
{
    let size = slice.size();
    let content = slice.content();
    let _ = content.size();
    let start = slice.open_start();
    let middle = start + insert;
    let first = is_structure(alloc, content, start, middle)?;
    let second = is_structure(alloc, content, middle, start + size)?;
    Ok(first && second)
}

/// The part from..to of a content without the gap, as a slice: the cut of from..to without the tokens of the gap.
fn cut_around(
    alloc: Global,
    schema: &Schema,
    content: &Fragment,
    ends: Ends,
) -> Result<Slice, AllocError>
    requires before { ends.from ≤ ends.gap_from }
    requires gap { ends.gap_from ≤ ends.gap_to }
    requires behind { ends.gap_to ≤ ends.to }
    requires within { ends.to ≤ length content.now }
    requires whole { is_whole (part ends.gap_from ends.gap_to content.now) ≡ true }
    ensures { IfOk result (λ s. s ≡ cut_around content.now ends.from ends.to ends.gap_from ends.gap_to) }
{
    let _ = content.size();
    let before = view_content(content, ends.from, ends.to);
    let cut = before.slice(alloc)?;
    let open_start = cut.open_start();
    let open_end = cut.open_end();
    let start = open_start + (ends.gap_from - ends.from);
    let end = start + (ends.gap_to - ends.gap_from);
    let inner = cut.content();
    let made = without(alloc, schema, inner, start, end)?;
    match Slice::new(alloc, made, open_start, open_end) {
        Ok(slice) => Ok(slice),
        Err(_) => unreachable!(),
    }
}

/// A content without the tokens start..end.
fn without(
    alloc: Global,
    schema: &Schema,
    content: &Fragment,
    start: usize,
    end: usize,
) -> Result<Fragment, AllocError>
    requires order { start ≤ end }
    requires within { end ≤ length content.now }
    requires fits { depths_fit content.now start end no_slice ≡ true }
    requires joins { joins (compatible (documents_of schema.now.spec)) [] (spliced content.now start end no_slice) ≡ true }
    ensures { IfOk result (λ f. f ≡ plain (spliced content.now start end no_slice)) }
{
    let _ = content.size();
    let none = Slice::empty(alloc);
    match splice(alloc, schema, content, start, end, &none) {
        Ok(made) => Ok(made),
        Err(Refused::NoMemory) => Err(AllocError),
        Err(Refused::Join) => unreachable!(),
    }
}
