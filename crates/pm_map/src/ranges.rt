//! How one range of a map moves a position.
ghost use Rattle.std.specs.Prelude.{◌≡◌, ◌+◌, ◌-◌, ◌≤◌, ◌<◌, ◌^◌, [], ◌∷◌, IfSome};
ghost use Rattle.pm_map.specs.Moves.{moved_from, decided, kept_at, inverted_range};

use crate::step_map::{Moved, Recover, Span};

/// The position goes here, and nothing around it is gone.
pub fn kept(pos: u64) -> Moved
    ensures { result ≡ kept_at pos }
{
    Moved {
        pos,
        deleted: false,
        across: false,
        after: false,
        recover: None,
    }
}

/// A range of the map back, after ranges that put in `gained` tokens and took out `lost`.
pub fn back(r: Span, gained: u64, lost: u64) -> Span
    requires below { lost ≤ r.start }
    requires room { (r.start + gained) - lost < 2 ^ 64 }
    ensures { result ≡ inverted_range r gained lost }
{
    Span {
        start: r.start - lost + gained,
        old_size: r.new_size,
        new_size: r.old_size,
    }
}

/// Where the last range sends a position.
pub fn last(r: Span, range: u8, gained: u64, lost: u64, pos: u64, before: bool) -> Moved
    requires below { lost ≤ r.start }
    requires below_pos { lost ≤ pos }
    requires end { r.start + r.old_size < 2 ^ 64 }
    requires new_end { ((r.start + gained) - lost) + r.new_size < 2 ^ 64 }
    requires room { (moved_from (r ∷ []) range gained lost pos before).pos < 2 ^ 64 }
    ensures { result ≡ moved_from (r ∷ []) range gained lost pos before }
{
    match decide(r, range, gained, lost, pos, before) {
        Some(m) => m,
        None => kept(pos - lost - r.old_size + gained + r.new_size),
    }
}

/// Where a range sends a position that is not after it; None for one that is.
pub fn decide(r: Span, range: u8, gained: u64, lost: u64, pos: u64, before: bool) -> Option<Moved>
    requires below { lost ≤ r.start }
    requires below_pos { lost ≤ pos }
    requires end { r.start + r.old_size < 2 ^ 64 }
    requires new_end { ((r.start + gained) - lost) + r.new_size < 2 ^ 64 }
    requires room { IfSome (decided r range gained lost pos before) (λ m. m.pos < 2 ^ 64) }
    ensures { result ≡ decided r range gained lost pos before }
{
    if pos < r.start {
        return Some(kept(pos - lost + gained));
    }
    let end = r.start + r.old_size;
    if end < pos {
        return None;
    }
    let to = r.start - lost + gained;
    let at_start = pos == r.start;
    let at_end = pos == end;
    let inside = !at_start && !at_end;
    let gone = if before { !at_start } else { !at_end };
    let goes_before = if r.old_size == 0 {
        before
    } else if at_start {
        true
    } else if at_end {
        false
    } else {
        before
    };
    Some(Moved {
        pos: if goes_before { to } else { to + r.new_size },
        deleted: gone,
        across: inside,
        after: inside || (at_start && !at_end),
        recover: if gone {
            Some(Recover {
                range,
                offset: pos - r.start,
            })
        } else {
            None
        },
    })
}
