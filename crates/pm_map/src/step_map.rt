//! The map of one step: at most two ranges.
ghost use Rattle.std.specs.Prelude.{◌≡◌, ◌+◌, ◌≤◌, ◌<◌, ◌^◌, ◌↔◌, length, IsTrue, IfSome, if◌then◌else◌};
ghost use Rattle.pm_map.specs.Moves.{moved, inverted_ranges, ranges_of, AreInOrder};
ghost use Rattle.pm_map.specs.Through.{result_start, new_at, IsIn, range_at};
ghost use Rattle.pm_map.specs.Mirrors.{may_mirror, gap_for, AreMirrors};

use crate::ranges::{back, decide, kept, last};
use crate::side::Side;
use std::marker::Model;

/// A range of a map, in tokens: where it starts in the old document, its size there, and its size in the new one.
#[derive(Clone, Copy, Drop, Debug, PartialEq, Eq)]
pub struct Span {
    pub start: u64,
    pub old_size: u64,
    pub new_size: u64,
}

/// From where a deleted position can come back: the range's number in its map, from 0, and the tokens from its start.
#[derive(Clone, Copy, Drop, Debug, PartialEq, Eq)]
pub struct Recover {
    pub range: u8,
    pub offset: u64,
}

/// Where a position went. `deleted`: the token on its side is gone. `across`: the tokens on both sides are gone.
/// `after`: the token after it is gone. `recover`: from where it can come back, exactly where `deleted` holds.
/// ProseMirror: `MapResult`.
#[derive(Clone, Copy, Drop, Debug, PartialEq, Eq)]
pub struct Moved {
    pub pos: u64,
    pub deleted: bool,
    pub across: bool,
    pub after: bool,
    pub recover: Option<Recover>,
}

/// The map of a step, seen as the list of its ranges.
/// ProseMirror: `StepMap`.
#[derive(Drop, Debug)]
pub struct StepMap {
    first: Option<Span>,
    second: Option<Span>,
}

impl Model for StepMap {
    ghost use Rattle.std.specs.Prelude.{List};
    ghost use Rattle.pm_map.specs.declared.step_map.Span.{Span};
    ghost use Rattle.pm_map.specs.Moves.{ranges_of, AreInOrder};

    ghost Value = { List Span };

    ghost view = { λ m. ranges_of m.first m.second };

    ghost invariant = { λ m. AreInOrder (ranges_of m.first m.second) 0 0 0 };
}

impl StepMap {
    /// The map with the ranges `first` and `second`, in this order, or its inverse where `inverted` holds. The ranges may
    /// touch but not overlap, and each must end below 2^64 before the step and after it.
    pub fn new(first: Option<Span>, second: Option<Span>, inverted: bool) -> StepMap
        requires { AreInOrder (ranges_of first second) 0 0 0 }
        ensures { result ≡ (if inverted then inverted_ranges (ranges_of first second) else ranges_of first second) }
    {
        let map = StepMap { first, second };
        if inverted { map.inverted() } else { map }
    }

    /// The same map.
    pub fn copy(&self) -> StepMap
        ensures { result ≡ self.now }
    {
        StepMap {
            first: self.first,
            second: self.second,
        }
    }

    /// Range number `i`, counted from 0. None exactly where there is no such range.
    pub fn span(&self, i: u8) -> Option<Span>
        ensures { result ≡ range_at self.now i }
    {
        match (self.first, self.second) {
            (Some(r), Some(s)) => {
                if i == 0 {
                    Some(r)
                } else if i == 1 {
                    Some(s)
                } else {
                    None
                }
            }
            (Some(r), None) => { if i == 0 { Some(r) } else { None } }
            (None, Some(s)) => { if i == 0 { Some(s) } else { None } }
            (None, None) => None,
        }
    }

    /// The map back: each range at its place in the result, with its old and new size exchanged.
    /// ProseMirror: `StepMap.invert`.
    pub fn inverted(&self) -> StepMap
        ensures { result ≡ inverted_ranges self.now }
    {
        match (self.first, self.second) {
            (Some(a), Some(b)) => StepMap {
                first: Some(back(a, 0, 0)),
                second: Some(back(b, a.new_size, a.old_size)),
            },
            (Some(a), None) => StepMap {
                first: Some(back(a, 0, 0)),
                second: None,
            },
            (None, Some(b)) => StepMap {
                first: None,
                second: Some(back(b, 0, 0)),
            },
            (None, None) => StepMap {
                first: None,
                second: None,
            },
        }
    }

    /// The ranges of a map are in order.
    pub fn ordered(&self)
        ensures { AreInOrder self.now 0 0 0 }
    {
        let _ = &self.first;
    }

    /// A map has at most two ranges.
    pub fn few(&self)
        ensures { length self.now ≤ 2 }
    {
        let _ = &self.first;
    }

    /// Whether this map can be the mirror of `earlier`: both have as many ranges, at least one, and the new size of each
    /// range here is its old size in `earlier`.
    pub fn mirrors(&self, earlier: &StepMap) -> bool
        ensures value { result ≡ may_mirror earlier.now self.now }
        ensures cause { IsTrue result ↔ AreMirrors earlier.now self.now }
    {
        match (earlier.first, earlier.second, self.first, self.second) {
            (Some(a), Some(b), Some(c), Some(d)) => {
                c.new_size == a.old_size && d.new_size == b.old_size
            }
            (Some(a), None, Some(c), None) => c.new_size == a.old_size,
            (Some(a), None, None, Some(c)) => c.new_size == a.old_size,
            (None, Some(a), Some(c), None) => c.new_size == a.old_size,
            (None, Some(a), None, Some(c)) => c.new_size == a.old_size,
            _ => false,
        }
    }

    /// The number of maps to a mirror of this map, where `maps` stand between the two. A map without ranges needs no
    /// mirror, and gets None.
    pub(crate) fn gap(&self, maps: usize) -> Option<usize>
        ensures { result ≡ gap_for self.now maps }
    {
        match (self.first, self.second) {
            (None, None) => None,
            _ => Some(maps),
        }
    }

    /// The position `offset` tokens after the start of range number `range` (from 0) in the result. The offset is at most
    /// that range's new size.
    /// ProseMirror: `StepMap.recover`.
    pub fn result_place(&self, range: u8, offset: u64) -> u64
        requires range_in { range < length self.now }
        requires offset_in { offset ≤ new_at self.now range }
        ensures { result ≡ result_start self.now range + offset }
    {
        match (self.first, self.second) {
            (Some(a), Some(b)) => {
                if range == 0 {
                    a.start + offset
                } else {
                    b.start - a.old_size + a.new_size + offset
                }
            }
            (Some(a), None) => a.start + offset,
            (None, Some(b)) => b.start + offset,
            (None, None) => unreachable!(),
        }
    }

    /// Where the position `pos`, in tokens, goes, and what the step did around it. Before the ranges it stays; after a range
    /// it shifts by the range's new size less its old size. Within or at a range it goes to the range's new start or new
    /// end: by its side strictly inside and at a pure insertion, else to the end at which it stands.
    /// Where `deleted` holds, `recover` says from which place of which range it came.
    /// ProseMirror: `StepMap.mapResult`.
    pub fn map(&self, pos: u64, side: Side) -> Moved
        requires { (moved self.now pos side).pos < 2 ^ 64 }
        ensures moved { result ≡ moved self.now pos side }
        ensures back { IfSome result.recover (IsIn self.now) }
    {
        let before = side.is_before();
        match (self.first, self.second) {
            (Some(a), Some(b)) => match decide(a, 0, 0, 0, pos, before) {
                Some(m) => m,
                None => last(b, 1, a.new_size, a.old_size, pos, before),
            },
            (Some(a), None) => last(a, 0, 0, 0, pos, before),
            (None, Some(b)) => last(b, 0, 0, 0, pos, before),
            (None, None) => kept(pos),
        }
    }
}
