//! Where a position stands.
ghost use Rattle.std.specs.Prelude.{◌≡◌, ℕ, ◌<◌, ◌≤◌, ◌+◌, ◌^◌, length};
ghost use Rattle.pm_sized.specs.Pairs.{pairs_of, many_pairs, group_pairs, total_of, IsLaid, IsFew, IsMany, IsGrouped, Stands};
ghost use Rattle.pm_sized.specs.Bound.{find_bound};

use crate::chunks::Chunks;
use crate::few::Few;
use crate::groups::Groups;
use crate::halves::search;
use crate::many::Many;
use crate::steps::Steps;
use std::marker::Brand;
use std::sync::ledger::{Blank, Ledger};

/// Where a position stands among items.
#[derive(Clone, Copy)]
pub struct Found {
    /// How many of them end at or before the position.
    pub index: usize,
    /// The sum of their measures.
    pub start: usize,
}

impl<T> Chunks<T> {
    /// Where a position stands, counted from the start of the first item. Among c items it takes at most 6 steps plus the
    /// number of binary digits of (c + 31) / 32. It takes no memory.
    pub fn find<L: Ledger>(&self, pos: usize, steps: &mut Steps<L>) -> Found
        requires laid { IsLaid self.now }
        requires within { pos ≤ total_of (pairs_of self.now) }
        ensures found { Stands (pairs_of self.now) pos result.index result.start }
        ensures steps { steps.new ≤ steps.old + find_bound (length (pairs_of self.now)) }
    {
        match self {
            Chunks::Few(few) => few.find(pos, steps),
            Chunks::Many(many) => many.find(pos, steps),
            Chunks::Groups(groups) => groups.find(pos, steps),
        }
    }

    /// The same, where nobody counts. It takes no memory.
    pub fn locate(&self, pos: usize) -> Found
        requires laid { IsLaid self.now }
        requires within { pos ≤ total_of (pairs_of self.now) }
        ensures { Stands (pairs_of self.now) pos result.index result.start }
    {
        find_with::<T, Brand>(Blank::new(1), self, pos)
    }
}

fn find_with<T, L: Ledger>(blank: Blank, chunks: &Chunks<T>, pos: usize) -> Found
    requires name { blank.name ≡ L.name }
    requires parts { blank.parts ≡ L.parts }
    requires one { 0 < blank.parts }
    requires laid { IsLaid chunks.now }
    requires within { pos ≤ total_of (pairs_of chunks.now) }
    ensures { Stands (pairs_of chunks.now) pos result.index result.start }
{
    let mut steps: Steps<L> = Steps::open(blank);
    chunks.find(pos, &mut steps)
}

impl<T> Few<T> {
    /// Where a position stands, by one item after another.
    fn find<L: Ledger>(&self, pos: usize, steps: &mut Steps<L>) -> Found
        requires few { IsFew self.now }
        requires within { pos ≤ total_of self.now.items.items }
        ensures found { Stands self.now.items.items pos result.index result.start }
        ensures steps { steps.new ≤ steps.old + length self.now.items.items }
    {
        let mut start = 0;
        for (index, entry) in self.items.iter().enumerate() {
            let end = start + entry.1;
            if !steps.reaches(&end, pos) {
                return Found { index, start };
            }
            start = end;
        }
        Found {
            index: self.items.len(),
            start,
        }
    }
}

impl<T> Many<T> {
    /// Where a position stands, by halves: first its chunk, then the item in it.
    fn find<L: Ledger>(&self, pos: usize, steps: &mut Steps<L>) -> Found
        requires laid { IsMany self.now }
        requires within { pos ≤ total_of (many_pairs self.now) }
        ensures found { Stands (many_pairs self.now) pos result.index result.start }
        ensures steps { steps.new ≤ steps.old + find_bound (length (many_pairs self.now)) }
        ensures halves { (k : ℕ) → length self.now.chunks.items ≤ 2 ^ k → steps.new ≤ steps.old + (k + 6) }
    {
        if pos == self.total {
            return Found {
                index: self.len,
                start: self.total,
            };
        }
        let at = search(&self.starts, pos, steps);
        let chunk = &self.chunks[at];
        let start = self.starts[at];
        let i = search(&chunk.starts, pos - start, steps);
        Found {
            index: self.firsts[at] + i,
            start: start + chunk.starts[i],
        }
    }
}

impl<T> Groups<T> {
    /// Where a position stands, by halves: first its part or the rest, then the item in that.
    fn find<L: Ledger>(&self, pos: usize, steps: &mut Steps<L>) -> Found
        requires laid { IsGrouped self.now }
        requires within { pos ≤ total_of (group_pairs self.now) }
        ensures found { Stands (group_pairs self.now) pos result.index result.start }
        ensures steps { steps.new ≤ steps.old + find_bound (length (group_pairs self.now)) }
    {
        let total = self.total();
        if pos == total {
            return Found {
                index: self.len(),
                start: total,
            };
        }
        let at = search(&self.starts, pos, steps);
        let start = self.starts[at];
        let found = self.part(at).find(pos - start, steps);
        Found {
            index: self.firsts[at] + found.index,
            start: start + found.start,
        }
    }
}
