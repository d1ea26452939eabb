//! The items after a step, over whose maps positions go.
ghost use Rattle.std.specs.Prelude.{◌≡◌, ◌<◌, ◌≤◌, ◌+◌, ◌++◌, ◌^◌, ◌&&◌, drop, length, nat_lt, slice_index_or, Some, IfOk};
ghost use Rattle.pm_map.specs.Moves.{moved, is_before, kept_at};
ghost use Rattle.pm_map.specs.Mirrors.{may_mirror};
ghost use Rattle.pm_map.specs.Through.{HasRoom, IsIn, joined, stepped, skipped, through};
ghost use Rattle.pm_history.specs.declared.item.Item.{Item};
ghost use Rattle.pm_history.specs.Items.{one_step};
ghost use Rattle.pm_history.specs.Laters.{items_of, entry_at, IsTold, TellsAll, TellsOf};
ghost use Rattle.pm_history.specs.Pairs.{later_in, paired};
ghost use Rattle.pm_history.specs.Undoers.{IsTableOf};

use crate::item::{Item, one_step};
use crate::undoers::{Undoers, table_of};
use pm_change::Name;
use pm_map::{Mirrored, Moved, Positions, Recover, Side};
use std::alloc::{AllocError, Global};

/// The items after a step, lent: `items` of the timeline and, after them, those that an undo has `made`. `undoers`: the table
/// of those that undo steps; None where it is not needed. It stands for the mapping of their maps, and copies none of them.
#[derive(Drop)]
pub struct Later<'a, C> {
    pub items: &'a [Item<C>],
    pub made: &'a [Item<C>],
    pub undoers: Option<Undoers>,
}

/// A position after a map, and how many maps a jump passes then.
#[derive(Clone, Copy, Drop)]
pub struct After {
    pub so: Moved,
    pub skip: usize,
}

impl<'a, C> Later<'a, C> {
    /// These items, in order, to tell positions. Only a deleted position asks for a mirror, and that puts in what was taken out. So
    /// it takes memory only where one of them undoes a step and puts tokens in.
    pub fn of(
        alloc: Global,
        items: &'a [Item<C>],
        made: &'a [Item<C>],
    ) -> Result<Later<'a, C>, AllocError>
        ensures items { IfOk result (λ l. items_of l ≡ items.now ++ made.now) }
        ensures told { IfOk result (λ l. IsTold l.undoers (items_of l)) }
    {
        Ok(Later {
            items,
            made,
            undoers: table_of(alloc, items, made, false)?,
        })
    }

    /// These items, in order, to tell all mirrors. It takes memory only where one of them undoes a step.
    pub fn whole(
        alloc: Global,
        items: &'a [Item<C>],
        made: &'a [Item<C>],
    ) -> Result<Later<'a, C>, AllocError>
        ensures items { IfOk result (λ l. items_of l ≡ items.now ++ made.now) }
        ensures told { IfOk result (λ l. TellsAll l.undoers (items_of l)) }
    {
        Ok(Later {
            items,
            made,
            undoers: table_of(alloc, items, made, true)?,
        })
    }

    /// How many items there are.
    pub fn len(&self) -> usize
        ensures { result ≡ length (items_of self.now) }
    {
        self.items.len() + self.made.len()
    }

    /// Item number `i`, counted from 0.
    fn at(&self, i: usize) -> &Item<C>
        requires { i < length (items_of self.now) }
        ensures { result.now ≡ slice_index_or (items_of self.now) i result.now }
    {
        if i < self.items.len() {
            &self.items[i]
        } else {
            &self.made[i - self.items.len()]
        }
    }

    /// The number of items between item number `i` and its mirror.
    fn mirror_of(&self, i: usize) -> Option<usize>
        requires within { i < length (items_of self.now) }
        requires told { TellsOf self.now.undoers (items_of self.now) i }
        ensures { result ≡ (entry_at (items_of self.now) i).later }
    {
        let item = self.at(i);
        match (&self.undoers, item.name()) {
            (Some(undoers), Some(name)) => self.search(undoers, item, name, i),
            _ => None,
        }
    }

    /// The number of items between number `i` and the first one after it that can be the mirror of `item`, which has this
    /// name.
    fn search(&self, undoers: &Undoers, item: &Item<C>, name: Name, i: usize) -> Option<usize>
        requires named { item.now.name ≡ Some name }
        requires table { IsTableOf undoers.now (items_of self.now) }
        ensures { result ≡ later_in item.now.name item.now.map (drop (i + 1) (items_of self.now)) }
    {
        let count = self.len();
        let mut at = undoers.nearest_to(name.serial);
        while let Some(left) = at {
            let place = count - 1 - left;
            if self.pairs(item, i, place) {
                return Some(place - i - 1);
            }
            at = undoers.next[left];
        }
        None
    }

    /// Whether item number `place` stands after number `i` and can be the mirror of `item`.
    fn pairs(&self, item: &Item<C>, i: usize, place: usize) -> bool
        requires { place < length (items_of self.now) }
        ensures { (x : Item C) → x ≡ slice_index_or (items_of self.now) place x
            → result ≡ (nat_lt i place && (one_step item.now.name x.undoes && may_mirror item.now.map x.map)) }
    {
        let other = self.at(place);
        i < place && one_step(item.name(), other.undoes()) && other.map().mirrors(&item.map())
    }

    /// Where the position `pos` goes over all maps by its side, as `Mapping::map` says it. Most maps it stands before or
    /// after: then it stays whole, and only its place changes.
    fn map(&self, pos: u64, side: Side) -> Moved
        requires room { HasRoom (paired (items_of self.now)) 0 (is_before side) (kept_at pos) }
        requires told { IsTold self.now.undoers (items_of self.now) }
        ensures { result ≡ through (paired (items_of self.now)) pos side }
    {
        let count = self.len();
        let mut so = Moved {
            pos,
            deleted: false,
            across: false,
            after: false,
            recover: None,
        };
        let mut i = 0;
        while i < count {
            if let Some(pos) = self.at(i).passed(so.pos) {
                so.pos = pos;
                i += 1;
            } else {
                let next = self.over(i, so, side);
                so = next.so;
                i += 1 + next.skip;
            }
        }
        so
    }

    /// Over the map of item number `i`. Only where it deletes the position its mirror is looked for.
    fn over(&self, i: usize, so: Moved, side: Side) -> After
        requires within { i < length (items_of self.now) }
        requires told { IsTold self.now.undoers (items_of self.now) }
        requires room { (moved (entry_at (items_of self.now) i).map so.pos side).pos < 2 ^ 64 }
        ensures state { let e = entry_at (items_of self.now) i in let m = moved e.map so.pos side in result.so ≡ stepped so m e.later m.recover (paired (drop (i + 1) (items_of self.now))) }
        ensures skip { let e = entry_at (items_of self.now) i in let m = moved e.map so.pos side in result.skip ≡ skipped e.later m.recover }
        ensures end { i + 1 + result.skip ≤ length (items_of self.now) }
    {
        let m = self.at(i).moved(so.pos, side);
        match m.recover {
            Some(r) => self.recovered(i, so, m, r),
            None => After {
                so: join(so, m),
                skip: 0,
            },
        }
    }

    /// Over the map of item number `i`, which deletes the position and sends it to `m`: to the same offset of the same range in
    /// the mirror's result, where it has one.
    fn recovered(&self, i: usize, so: Moved, m: Moved, r: Recover) -> After
        requires within { i < length (items_of self.now) }
        requires told { TellsOf self.now.undoers (items_of self.now) i }
        requires back { IsIn (entry_at (items_of self.now) i).map r }
        ensures state { let e = entry_at (items_of self.now) i in result.so ≡ stepped so m e.later (Some r) (paired (drop (i + 1) (items_of self.now))) }
        ensures skip { let e = entry_at (items_of self.now) i in result.skip ≡ skipped e.later (Some r) }
        ensures end { i + 1 + result.skip ≤ length (items_of self.now) }
    {
        let Some(gap) = self.mirror_of(i) else {
            return After {
                so: join(so, m),
                skip: 0,
            };
        };
        let _ = self.len();
        let pos = self.at(i + 1 + gap).map().result_place(r.range, r.offset);
        After {
            so: Moved {
                pos,
                recover: None,
                ..so
            },
            skip: gap + 1,
        }
    }

    /// The maps of the items, each with its mirror.
    pub fn entries(&self, alloc: Global) -> Result<Vec<Mirrored>, AllocError>
        requires { TellsAll self.now.undoers (items_of self.now) }
        ensures { IfOk result (λ v. v.items ≡ paired (items_of self.now)) }
    {
        let count = self.len();
        let mut maps = Vec::new(alloc);
        let mut i = 0;
        while i < count {
            maps.push(Mirrored {
                map: self.at(i).map(),
                later: self.mirror_of(i),
            })?;
            i += 1;
        }
        Ok(maps)
    }
}

/// The items tell where positions go over their maps.
impl<'a, C> Positions for Later<'a, C> {
    ghost use Rattle.pm_history.specs.Laters.{Leads};

    ghost leads = { Leads };

    fn place(&self, pos: u64, side: Side) -> Moved {
        self.map(pos, side)
    }

    ghost fits = { λ l ms n k h. (h.paired_are, h.fits) };
}

/// The position after a map without a jump.
fn join(so: Moved, m: Moved) -> Moved
    ensures { result ≡ joined so m }
{
    Moved {
        pos: m.pos,
        deleted: so.deleted || m.deleted,
        across: so.across || m.across,
        after: so.after || m.after,
        recover: None,
    }
}
