//! How an item is held.
ghost use Rattle.std.specs.Prelude.{◌≡◌, ◌&&◌, [], ◌∷◌, IfOk, IfSome};
ghost use Rattle.std.specs.Option.{is_some};
ghost use Rattle.pm_history.specs.Items.{foreign_item};
ghost use Rattle.pm_history.specs.Fillings.{puts_in};
ghost use Rattle.pm_history.specs.Forms.{seen, Holds, IsShort};

use crate::ranges::{puts_in, still_before};
use pm_change::Name;
use pm_list::Listed;
use pm_map::{Span, StepMap};
use std::alloc::{AllocError, Global};

/// The old size that is held in place where the sizes are not.
pub const NOT_HELD: u8 = 255;

/// How an item is held. `Still`: another's step without a range. `Ranged`: another's step with one range, whose numbers are
/// small. `Whole`: any other, in memory of its own, which most calls need not read: `brings_back` tells whether it was made to
/// undo another and puts tokens in, and a position before `start` stays where it is. Where `old_size` is not `NOT_HELD`, its
/// map is the one range with these numbers.
#[derive(Drop)]
pub enum Form<C> {
    Still,
    Ranged {
        start: u32,
        old_size: u32,
        new_size: u32,
    },
    Whole {
        brings_back: bool,
        old_size: u8,
        new_size: u8,
        start: u32,
        whole: Box<Whole<C>>,
    },
}

/// All that is kept of a step.
#[derive(Drop)]
pub struct Whole<C> {
    pub name: Option<Name>,
    pub map: StepMap,
    pub inverse: Listed<C>,
    pub undoes: Option<Name>,
}

/// The form of a step in memory of its own.
pub fn held<C>(alloc: Global, whole: Whole<C>) -> Result<Form<C>, AllocError>
where
    C: Drop,
    ensures seen { IfOk result (λ f. seen f ≡ record { name = whole.name; map = whole.map; inverse = whole.inverse; undoes = whole.undoes }) }
    ensures holds { IfOk result Holds }
{
    let brings_back = restores(whole.undoes, &whole.map);
    let start = still_before(&whole.map);
    let (old_size, new_size) = short(&whole.map, start);
    Ok(Form::Whole {
        brings_back,
        old_size,
        new_size,
        start,
        whole: Box::new(alloc, whole)?,
    })
}

/// The sizes of the one range of this map, where it starts here and they are small.
fn short(map: &StepMap, start: u32) -> (u8, u8)
    ensures { IsShort start result.0 result.1 map.now }
{
    match (map.span(0), map.span(1)) {
        (Some(range), None) => short_range(range, start),
        _ => (NOT_HELD, 0),
    }
}

/// The sizes of this range, where it starts here and they are small.
fn short_range(range: Span, start: u32) -> (u8, u8)
    ensures { IsShort start result.0 result.1 (range ∷ []) }
{
    if range.start == start as u64
        && range.old_size < NOT_HELD as u64
        && range.new_size < NOT_HELD as u64
    {
        (range.old_size as u8, range.new_size as u8)
    } else {
        (NOT_HELD, 0)
    }
}

/// Whether a step with this map that was made to undo this one brings tokens back.
pub fn restores(undoes: Option<Name>, map: &StepMap) -> bool
    ensures { result ≡ (is_some undoes && puts_in map.now) }
{
    undoes.is_some() && puts_in(map)
}

/// The form of another's step with this map, where it takes no memory.
pub fn small<C>(map: &StepMap) -> Option<Form<C>>
    ensures seen { IfSome result (λ f. seen f ≡ foreign_item map.now) }
    ensures holds { IfSome result Holds }
{
    match (map.span(0), map.span(1)) {
        (None, _) => Some(Form::Still),
        (Some(span), None) => narrow(span),
        _ => None,
    }
}

/// The form of another's step with this range alone, where its numbers are small.
fn narrow<C>(span: Span) -> Option<Form<C>>
    ensures seen { IfSome result (λ f. seen f ≡ foreign_item (span ∷ [])) }
    ensures holds { IfSome result Holds }
{
    match (
        u32::try_from(span.start),
        u32::try_from(span.old_size),
        u32::try_from(span.new_size),
    ) {
        (Ok(start), Ok(old_size), Ok(new_size)) => Some(Form::Ranged {
            start,
            old_size,
            new_size,
        }),
        _ => None,
    }
}

/// The map of one range.
pub fn ranged(start: u32, old_size: u32, new_size: u32) -> StepMap
    ensures { result ≡ record { start = start; old_size = old_size; new_size = new_size } ∷ [] }
{
    StepMap::new(Some(span_of(start, old_size, new_size)), None, false)
}

/// A range with small numbers.
pub fn span_of(start: u32, old_size: u32, new_size: u32) -> Span
    ensures { result ≡ record { start = start; old_size = old_size; new_size = new_size } }
{
    Span {
        start: start as u64,
        old_size: old_size as u64,
        new_size: new_size as u64,
    }
}
