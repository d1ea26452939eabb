//! How one map of a mapping moves a position.
ghost use Rattle.std.specs.Prelude.{◌≡◌, ◌+◌, ◌≤◌, ◌<◌, ◌^◌, length};
ghost use Rattle.pm_map.specs.Moves.{moved};
ghost use Rattle.pm_map.specs.Through.{joined, at_pos, stepped, skipped, IsPairedAt, partner, new_at, result_start};

use crate::mapping::Mirrored;
use crate::side::Side;
use crate::step_map::{Moved, Recover};

/// The position and its flags after a map, and how many maps a jump passes then.
#[derive(Clone, Copy, Drop)]
pub struct After {
    pub so: Moved,
    pub skip: usize,
}

/// Over one map of a mapping, with the maps `rest` after it.
pub fn over(entry: &Mirrored, rest: &[Mirrored], so: Moved, side: Side) -> After
    requires room { (moved entry.now.map so.pos side).pos < 2 ^ 64 }
    requires paired { IsPairedAt entry.now.map entry.now.later rest.now }
    ensures state { let m = moved entry.now.map so.pos side in result.so ≡ stepped so m entry.now.later m.recover rest.now }
    ensures skip { let m = moved entry.now.map so.pos side in result.skip ≡ skipped entry.now.later m.recover }
    ensures within { result.skip ≤ length rest.now }
{
    let m = entry.map.map(so.pos, side);
    match (entry.later, m.recover) {
        (Some(gap), Some(r)) => After {
            so: at(so, place_after(rest, gap, r)),
            skip: gap + 1,
        },
        _ => After {
            so: join(so, m),
            skip: 0,
        },
    }
}

/// The position after a jump.
fn at(so: Moved, pos: u64) -> Moved
    ensures { result ≡ at_pos so pos }
{
    Moved {
        pos,
        deleted: so.deleted,
        across: so.across,
        after: so.after,
        recover: None,
    }
}

/// The position after a map without a jump.
fn join(so: Moved, m: Moved) -> Moved
    ensures { result ≡ joined so m }
{
    Moved {
        pos: m.pos,
        deleted: so.deleted || m.deleted,
        across: so.across || m.across,
        after: so.after || m.after,
        recover: None,
    }
}

/// The place that a mirror recovers, with `gap` maps before it in `rest`.
fn place_after(rest: &[Mirrored], gap: usize, r: Recover) -> u64
    requires gap_in { gap < length rest.now }
    requires range_in { r.range < length (partner rest.now gap) }
    requires offset_in { r.offset ≤ new_at (partner rest.now gap) r.range }
    ensures { result ≡ result_start (partner rest.now gap) r.range + r.offset }
{
    rest[gap].map.result_place(r.range, r.offset)
}
