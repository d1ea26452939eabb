//! Laws of maps and mappings. Each call does nothing; its contract is the law.
ghost use Rattle.pm_map.specs.Firsts.{FirstDecides};
ghost use Rattle.pm_map.specs.Laws.{InvertsTwice, KeepsOrder, OutsideComesBack, PairMovesNothing, PairAfter, StretchMovesNothing, BothMoveNothing, GoesOn, MovesBehind, MovesInFront, DropsFront, FitsBothWays, FitsHasRoom};

use crate::mapping::Mapping;
use crate::step_map::StepMap;

/// The first range that holds a position within or at its ends decides where it goes; a position that none holds shifts by
/// the differences of the ranges before it.
pub fn first_decides(map: &StepMap)
    ensures { FirstDecides map.now }
{
    map.ordered();
}

/// A map inverted twice is itself.
pub fn inverts_twice(map: &StepMap)
    ensures { InvertsTwice map.now }
{
    map.ordered();
}

/// A map keeps the order of positions that go by one side.
pub fn keeps_order(map: &StepMap)
    ensures { KeepsOrder map.now }
{
    map.ordered();
}

/// A position outside the ranges comes back over a map and its inverse, without a flag.
pub fn outside_comes_back(map: &StepMap)
    ensures { OutsideComesBack map.now }
{
    map.ordered();
}

/// Over a map whose ranges don't touch and its inverse as its mirror, each position stays as it is. No flag holds, except
/// `after` for a position mapped by `Before` that stands at the start of a range of either map with an old size above 0.
pub fn pair_moves_nothing(map: &StepMap)
    ensures still { PairMovesNothing map.now }
    ensures after { PairAfter map.now }
{
    let _ = map;
}

/// Where a mapping moves nothing, neither does it with a map whose ranges don't touch at the front and that map's inverse as
/// its mirror after. So a stretch in which each such step is undone exactly moves nothing.
pub fn stretch_moves_nothing(mapping: &Mapping, map: &StepMap)
    ensures { StretchMovesNothing mapping.now map.now }
{
    mapping.paired();
    let _ = map;
}

/// Two mappings that move nothing move nothing one after another.
pub fn both_move_nothing(first: &Mapping, second: &Mapping)
    ensures { BothMoveNothing first.now second.now }
{
    first.paired();
    let _ = second;
}

/// Over two mappings one after another a position goes over the first and then over the second.
pub fn goes_on(first: &Mapping, second: &Mapping)
    ensures { GoesOn first.now second.now }
{
    first.paired();
    let _ = second;
}

/// An unpaired map after a mapping moves what comes out of it.
pub fn moves_behind(mapping: &Mapping, map: &StepMap)
    ensures { MovesBehind mapping.now map.now }
{
    mapping.paired();
    let _ = map;
}

/// An unpaired map before a mapping moves what goes into it.
pub fn moves_in_front(mapping: &Mapping, map: &StepMap)
    ensures { MovesInFront mapping.now map.now }
{
    let _ = mapping;
    let _ = map;
}

/// A mapping without its first `count` maps moves what comes out of these, where none of them has a mirror after them.
pub fn drops_front(mapping: &Mapping, count: usize)
    ensures { DropsFront mapping.now count }
{
    let _ = mapping;
    let _ = count;
}

/// A map that fits two sizes leads positions within the first to positions within the second, and its inverse fits them
/// the other way round.
pub fn fits_both_ways(map: &StepMap)
    ensures { FitsBothWays map.now }
{
    let _ = map;
}

/// A mapping that fits a list of sizes has room, and leads positions within the first size to positions within the last.
pub fn fits_has_room(mapping: &Mapping)
    ensures { FitsHasRoom mapping.now }
{
    mapping.paired();
}
