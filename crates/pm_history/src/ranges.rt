//! What is seen at once of the ranges of a map.
ghost use Rattle.std.specs.Prelude.{◌≡◌, ◌<◌, ◌+◌, ◌^◌, [], ◌∷◌, IfSome};
ghost use Rattle.pm_map.specs.declared.side.Side.{Side};
ghost use Rattle.pm_map.specs.Moves.{moved, kept_at};
ghost use Rattle.pm_history.specs.Fillings.{puts_in, is_filled};
ghost use Rattle.pm_history.specs.Forms.{StartsFrom};

use pm_map::{Span, StepMap};

/// Where a position goes that stands before or after the one range of this map, or over a map without ranges.
pub fn passed_by(map: &StepMap, pos: u64) -> Option<u64>
    requires { ((side : Side) × ((moved map.now pos side).pos < 2 ^ 64)) }
    ensures { IfSome result (λ p. (side : Side) → moved map.now pos side ≡ kept_at p) }
{
    map.ordered();
    match (map.span(0), map.span(1)) {
        (None, _) => Some(pos),
        (Some(range), None) => shifted(range, pos),
        _ => None,
    }
}

/// Where a position goes that stands before or after this range.
pub fn shifted(range: Span, pos: u64) -> Option<u64>
    requires end { range.start + range.old_size < 2 ^ 64 }
    requires room { ((side : Side) × ((moved (range ∷ []) pos side).pos < 2 ^ 64)) }
    ensures { IfSome result (λ p. (side : Side) → moved (range ∷ []) pos side ≡ kept_at p) }
{
    if pos < range.start {
        return Some(pos);
    }
    if range.start + range.old_size < pos {
        return Some(pos - range.old_size + range.new_size);
    }
    None
}

/// A place before which a position stays where it is, over the ranges of this map: where the first one starts.
pub fn still_before(map: &StepMap) -> u32
    ensures { StartsFrom result map.now }
{
    match map.span(0) {
        Some(range) => range.start.min(u32::MAX as u64) as u32,
        None => u32::MAX,
    }
}

/// Whether a range of this map puts tokens in.
pub fn puts_in(map: &StepMap) -> bool
    ensures { result ≡ puts_in map.now }
{
    map.few();
    is_filled(map.span(0)) || is_filled(map.span(1))
}

/// Whether this is a range that puts tokens in.
fn is_filled(span: Option<Span>) -> bool
    ensures { result ≡ is_filled span }
{
    match span {
        Some(range) => range.new_size != 0,
        None => false,
    }
}
