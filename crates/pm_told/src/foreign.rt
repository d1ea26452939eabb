//! What a client is told that took entries of the log.
ghost use Rattle.std.specs.Prelude.{◌≡◌, ◌+◌, ◌<◌, ◌^◌, ◌++◌, [], length, codes, Some, OnOk, IfOk, string_bytes};
ghost use Rattle.pm_told.specs.Showing.{empty_view, positions_of, back_of, taken_text, shown_text};
ghost use Rattle.pm_told.specs.Texts.{numbers_text};
ghost use Rattle.pm_told.specs.Previews.{TakesBack, MayShow, back_view, back_views, view_by, views_by, preview_text};

use crate::listing::{changes_of, positions, push_changes_of, push_copies};
use crate::pairing::pairs_of;
use crate::preview::Preview;
use crate::writing::{push_changes, push_numbers, push_pairs};
use pm_apply::DocChange;
use pm_authority::Named;
use pm_client::Cursor;
use pm_remote::Back;
use pm_schema::Schema;
use std::alloc::{AllocError, Global};

/// The steps that lead a view from its document to the client's new one: the first `back` of them take the pending ones back, and
/// the carried ones stand at the end. `pairs`: the places of a step back and of the carried step that is its mirror.
#[derive(Drop)]
pub struct Shown {
    pub back: usize,
    pub steps: Vec<DocChange>,
    pub pairs: Vec<(u64, u64)>,
}

/// Entries were taken that are the client's own first pending steps alone.
pub fn own_text(
    alloc: Global,
    schema: &Schema,
    confirmed: usize,
    cursors: &[Cursor],
    version: u64,
) -> Result<String, AllocError>
    ensures { IfOk result (λ s. string_bytes s ≡ taken_text schema.now.spec (Some empty_view) confirmed (positions_of cursors.now) [] 0 version) }
{
    let shown = Some(nothing(alloc));
    taken_text(alloc, schema, &shown, confirmed, cursors, &[], 0, version)
}

/// No step is shown.
fn nothing(alloc: Global) -> Shown
    ensures { view_by result ≡ empty_view }
{
    Shown {
        back: 0,
        steps: Vec::new(alloc),
        pairs: Vec::new(alloc),
    }
}

/// Entries were taken that are the client's first pending steps, so many, and then these of others.
pub fn brought_text(
    alloc: Global,
    schema: &Schema,
    later: &[Named<DocChange>],
    confirmed: usize,
    foreign: &[DocChange],
    preview: &Preview,
    version: u64,
) -> Result<String, AllocError>
    requires back { MayShow (length later.now) preview.now.back }
    requires room { length foreign.now + length preview.now.kept < 2 ^ 62 }
    ensures { IfOk result (λ s. string_bytes s ≡ preview_text schema.now.spec later.now confirmed foreign.now preview.now version) }
{
    let kept = preview.kept.as_slice();
    let shown = may_show(alloc, &preview.back, later, foreign, kept)?;
    let cursors = preview.cursors.as_slice();
    let dropped = preview.dropped.as_slice();
    let count = foreign.len();
    taken_text(
        alloc, schema, &shown, confirmed, cursors, dropped, count, version,
    )
}

/// What is shown, where the steps back apply.
fn may_show(
    alloc: Global,
    back: &Option<Back<DocChange>>,
    later: &[Named<DocChange>],
    foreign: &[DocChange],
    kept: &[Named<DocChange>],
) -> Result<Option<Shown>, AllocError>
    requires back { MayShow (length later.now) back.now }
    requires room { length foreign.now + length kept.now < 2 ^ 62 }
    ensures { IfOk result (λ w. views_by w ≡ back_views later.now foreign.now kept.now back.now) }
{
    match back {
        Some(back) => Ok(Some(shown_of(alloc, back, later, foreign, kept)?)),
        None => Ok(None),
    }
}

/// The steps back, then others', and then those kept.
fn shown_of(
    alloc: Global,
    back: &Back<DocChange>,
    later: &[Named<DocChange>],
    foreign: &[DocChange],
    kept: &[Named<DocChange>],
) -> Result<Shown, AllocError>
    requires back { TakesBack (length later.now) back.now }
    requires room { length foreign.now + length kept.now < 2 ^ 62 }
    ensures { IfOk result (λ w. view_by w ≡ back_view later.now foreign.now kept.now back.now) }
{
    let count = back.steps.len();
    let mut steps = Vec::new(alloc);
    push_copies(alloc, &mut steps, &back.steps)?;
    push_copies(alloc, &mut steps, foreign)?;
    let first = steps.len();
    push_changes_of(alloc, &mut steps, kept)?;
    let pairs = pairs_of(alloc, &back.sizes, later, kept, count, first)?;
    Ok(Shown {
        back: count,
        steps,
        pairs,
    })
}

fn taken_text(
    alloc: Global,
    schema: &Schema,
    shown: &Option<Shown>,
    confirmed: usize,
    cursors: &[Cursor],
    dropped: &[u64],
    foreign: usize,
    version: u64,
) -> Result<String, AllocError>
    ensures { IfOk result (λ s. string_bytes s ≡ taken_text schema.now.spec (views_by shown.now) confirmed (positions_of cursors.now) dropped.now foreign version) }
{
    let back = back_of(shown);
    let mut text = format!(in alloc; "{{\"back\":{back},\"confirmed\":{confirmed}")?;
    push_places(alloc, &mut text, cursors, dropped)?;
    write!(text, ",\"foreign\":{foreign},\"pairs\":")?;
    push_shown(alloc, schema, &mut text, shown)?;
    write!(text, ",\"version\":{version}}}\n")?;
    Ok(text)
}

/// How many of the steps take pending ones back.
fn back_of(shown: &Option<Shown>) -> usize
    ensures { result ≡ back_of (views_by shown.now) }
{
    match shown {
        Some(shown) => shown.back,
        None => 0,
    }
}

/// Appends the positions of the cursors, and the serials of the steps that are lost.
fn push_places(
    alloc: Global,
    text: &mut String,
    cursors: &[Cursor],
    dropped: &[u64],
) -> Result<(), AllocError>
    ensures { OnOk result (string_bytes text.new ≡ string_bytes text.old ++ (codes ",\"cursors\":" ++ (numbers_text (positions_of cursors.now) ++ (codes ",\"dropped\":" ++ numbers_text dropped.now)))) }
{
    let places = positions(alloc, cursors)?;
    text.push_str(",\"cursors\":")?;
    push_numbers(text, &places)?;
    text.push_str(",\"dropped\":")?;
    push_numbers(text, dropped)
}

/// Appends the pairs and the steps.
fn push_shown(
    alloc: Global,
    schema: &Schema,
    text: &mut String,
    shown: &Option<Shown>,
) -> Result<(), AllocError>
    ensures { OnOk result (string_bytes text.new ≡ string_bytes text.old ++ shown_text schema.now.spec (views_by shown.now)) }
{
    match shown {
        Some(shown) => {
            push_pairs(text, &shown.pairs)?;
            text.push_str(",\"steps\":")?;
            push_changes(alloc, schema, text, &shown.steps)
        }
        None => text.push_str("null,\"steps\":null"),
    }
}
