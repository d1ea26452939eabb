//! Cases of maps and mappings, with answers worked out by hand from the rules.
ghost use Rattle.std.specs.Prelude.{◌≡◌, [], ◌∷◌};
ghost use Rattle.pm_map.specs.Moves.{AreInOrder};

use pm_map::{Mapping, Mirrored, Moved, Recover, Side, Span, StepMap, laws};
use std::alloc::{AllocError, Global};

/// The map with one range.
fn one(start: u64, old_size: u64, new_size: u64) -> StepMap
    requires { AreInOrder (record { start = start; old_size = old_size; new_size = new_size } ∷ []) 0 0 0 }
    ensures { result ≡ record { start = start; old_size = old_size; new_size = new_size } ∷ [] }
{
    let span = Span {
        start,
        old_size,
        new_size,
    };
    StepMap::new(Some(span), None, false)
}

/// The position, whether it is deleted, across and after, and the range and the offset of the recover value.
type Told = (u64, bool, bool, bool, Option<(u8, u64)>);

fn told(m: Moved) -> Told {
    let found = match m.recover {
        Some(Recover { range, offset }) => Some((range, offset)),
        None => None,
    };
    (m.pos, m.deleted, m.across, m.after, found)
}

/// Where positions 0, 2, 2 and 3 go, the second 2 by the side before.
fn over_an_insertion() -> [Told; 4] {
    let map = one(2, 0, 4);
    [
        told(map.map(0, Side::After)),
        told(map.map(2, Side::After)),
        told(map.map(2, Side::Before)),
        told(map.map(3, Side::After)),
    ]
}

const INSERTED: [Told; 4] = [
    (0, false, false, false, None),
    (6, false, false, false, None),
    (2, false, false, false, None),
    (7, false, false, false, None),
];

#[test]
fn an_insertion_goes_by_the_side(rt: HostRuntime) {
    assert!(rt; over_an_insertion() == INSERTED);
}

/// Where positions go over a range from 2 to 6 that is taken out.
fn over_a_deletion() -> [Told; 8] {
    let map = one(2, 4, 0);
    [
        told(map.map(0, Side::After)),
        told(map.map(2, Side::Before)),
        told(map.map(2, Side::After)),
        told(map.map(3, Side::After)),
        told(map.map(4, Side::Before)),
        told(map.map(6, Side::After)),
        told(map.map(6, Side::Before)),
        told(map.map(7, Side::After)),
    ]
}

const DELETED: [Told; 8] = [
    (0, false, false, false, None),
    (2, false, false, true, None),
    (2, true, false, true, Some((0, 0))),
    (2, true, true, true, Some((0, 1))),
    (2, true, true, true, Some((0, 2))),
    (2, false, false, false, None),
    (2, true, false, false, Some((0, 4))),
    (3, false, false, false, None),
];

#[test]
fn a_deletion_flags_and_recovers(rt: HostRuntime) {
    assert!(rt; over_a_deletion() == DELETED);
}

/// The token at 2 is taken out, and the one at 5 is replaced by three.
const FIRST: Span = Span {
    start: 2,
    old_size: 1,
    new_size: 0,
};

const SECOND: Span = Span {
    start: 5,
    old_size: 1,
    new_size: 3,
};

/// Where positions go over the two ranges.
fn over_two() -> [Told; 6] {
    let map = StepMap::new(Some(FIRST), Some(SECOND), false);
    [
        told(map.map(3, Side::After)),
        told(map.map(4, Side::After)),
        told(map.map(5, Side::Before)),
        told(map.map(5, Side::After)),
        told(map.map(6, Side::After)),
        told(map.map(7, Side::After)),
    ]
}

const SHIFTED: [Told; 6] = [
    (2, false, false, false, None),
    (3, false, false, false, None),
    (4, false, false, true, None),
    (4, true, false, true, Some((1, 0))),
    (7, false, false, false, None),
    (8, false, false, false, None),
];

/// Where positions go back over the two ranges, by the map that is made so, and by the inverse of the map there; and where
/// one goes over no range.
fn back_over_two() -> [Told; 3] {
    let back = StepMap::new(Some(FIRST), Some(SECOND), true);
    let inverse = StepMap::new(Some(FIRST), Some(SECOND), false).inverted();
    [
        told(back.map(7, Side::After)),
        told(inverse.map(8, Side::After)),
        told(StepMap::new(None, None, false).map(3, Side::Before)),
    ]
}

const BACK: [Told; 3] = [
    (6, false, false, false, None),
    (7, false, false, false, None),
    (3, false, false, false, None),
];

#[test]
fn two_ranges_shift_one_after_the_other(rt: HostRuntime) {
    assert!(rt; over_two() == SHIFTED);
    assert!(rt; back_over_two() == BACK);
}

/// Whether the map of the two ranges mirrors the one back, the one back a copy of it, and maps of one range mirror it.
fn two_mirror() -> [bool; 4] {
    let map = StepMap::new(Some(FIRST), Some(SECOND), false);
    let back = StepMap::new(Some(FIRST), Some(SECOND), true);
    let single = one(2, 0, 1);
    [
        back.mirrors(&map),
        map.copy().mirrors(&back),
        single.mirrors(&map),
        map.mirrors(&single),
    ]
}

/// Whether a range of three for one mirrors one of one for three, likewise one of three for two, and whether a map without
/// ranges mirrors itself.
fn one_mirrors() -> [bool; 3] {
    let earlier = one(2, 1, 3);
    let none = StepMap::new(None, None, false);
    [
        one(2, 3, 1).mirrors(&earlier),
        one(2, 3, 2).mirrors(&earlier),
        none.mirrors(&none),
    ]
}

#[test]
fn maps_mirror_by_their_sizes(rt: HostRuntime) {
    assert!(rt; two_mirror() == [true, true, false, false]);
    assert!(rt; one_mirrors() == [true, false, false]);
}

/// Where positions go over a deletion, an insertion and the inverse of the deletion, and at last over those two.
fn over_a_pair(alloc: Global) -> Result<[Told; 4], AllocError> {
    let mut mapping = Mapping::new(alloc);
    mapping.push(one(2, 4, 0))?;
    mapping.push(one(1, 0, 1))?;
    mapping.push_pair(one(3, 0, 4), 0)?;
    let behind = mapping.slice(alloc, 1)?;
    Ok([
        told(mapping.map(1, Side::After)),
        told(mapping.map(4, Side::After)),
        told(mapping.map(7, Side::After)),
        told(behind.map(4, Side::After)),
    ])
}

const JUMPED: [Told; 4] = [
    (2, false, false, false, None),
    (5, false, false, false, None),
    (8, false, false, false, None),
    (9, false, false, false, None),
];

#[test]
fn maps_between_a_pair_are_jumped_over(rt: HostRuntime) {
    assert!(rt; over_a_pair(rt.alloc()) == Ok(JUMPED));
}

/// Where a position goes over a deletion and its inverse.
fn over_entries(alloc: Global) -> Result<Told, AllocError> {
    let entries = vec![in alloc;
        Mirrored {
            map: one(2, 4, 0),
            later: Some(0)
        },
        Mirrored {
            map: one(2, 0, 4),
            later: None
        },
    ]?;
    let mapping = Mapping::from_entries(entries);
    mapping.paired();
    of_mappings(&mapping);
    of_both(&mapping, &one(2, 4, 0));
    Ok(told(mapping.map(4, Side::After)))
}

fn of_maps(map: &StepMap) {
    map.ordered();
    laws::first_decides(map);
    laws::inverts_twice(map);
    laws::keeps_order(map);
    laws::outside_comes_back(map);
    laws::pair_moves_nothing(map);
    laws::fits_both_ways(map);
}

fn of_mappings(mapping: &Mapping) {
    laws::both_move_nothing(mapping, mapping);
    laws::goes_on(mapping, mapping);
    laws::drops_front(mapping, 2);
    laws::fits_has_room(mapping);
}

fn of_both(mapping: &Mapping, map: &StepMap) {
    laws::stretch_moves_nothing(mapping, map);
    laws::moves_behind(mapping, map);
    laws::moves_in_front(mapping, map);
}

#[test]
fn entries_and_laws(rt: HostRuntime) {
    of_maps(&one(2, 4, 0));
    assert!(rt; over_entries(rt.alloc()) == Ok((4, false, false, false, None)));
}
