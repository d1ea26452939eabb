//! Very many items, in parts of chunks that are shared as wholes.
ghost use Rattle.std.specs.Prelude.{◌≡◌, ◌+◌, ◌<◌, ◌≤◌, ◌^◌, [], ◌++◌, length, get_or, IfOk, OnOk, OnErr};
ghost use Rattle.std.specs.Arc.{arc_value};
ghost use Rattle.pm_sized.specs.Pairs.{many_pairs, each_pairs, parts_of, part_of, group_pairs, total_of, IsMany, IsPart, IsGrouped};

use crate::halves::place;
use crate::many::Many;
use std::alloc::{AllocError, Global};
use std::sync::Arc;

/// The number of chunks of a part.
pub(crate) const PART: usize = 64;

/// Items in order, each with its measure: parts of 64 chunks of 32 to 63, and after them the rest in chunks of its own.
/// Parts are shared as wholes: beside each, and beside the rest, stand its start, the sum of the measures before it, and how
/// many items are before it.
#[derive(Drop)]
pub struct Groups<T> {
    pub(crate) parts: Vec<Arc<Many<T>, Global>>,
    pub(crate) starts: Vec<usize>,
    pub(crate) firsts: Vec<usize>,
    pub(crate) rest: Many<T>,
}

impl<T> Groups<T> {
    /// These items, with no parts before them. Out of memory, they are dropped.
    pub(crate) fn of(alloc: Global, rest: Many<T>) -> Result<Groups<T>, AllocError>
    where
        T: Drop,
        requires laid { IsMany rest }
        requires most { length rest.chunks.items ≤ 64 }
        ensures pairs { IfOk result (λ g. group_pairs g ≡ many_pairs rest) }
        ensures laid { IfOk result (λ g. IsGrouped g) }
    {
        Ok(Groups {
            parts: Vec::new(alloc),
            starts: vec![in alloc; 0]?,
            firsts: vec![in alloc; 0]?,
            rest,
        })
    }

    /// The number of items. It takes no memory.
    pub(crate) fn len(&self) -> usize
        requires laid { IsGrouped self.now }
        ensures { result ≡ length (group_pairs self.now) }
    {
        self.firsts[self.parts.len()] + self.rest.len
    }

    /// The sum of the measures. It takes no memory.
    pub(crate) fn total(&self) -> usize
        requires laid { IsGrouped self.now }
        ensures { result ≡ total_of (group_pairs self.now) }
    {
        self.starts[self.parts.len()] + self.rest.total
    }

    /// Part number `at`, counted from 0, or the rest after the last of them. It takes no memory.
    pub(crate) fn part(&self, at: usize) -> &Many<T>
        ensures { result.now ≡ part_of self.now at }
    {
        if at < self.parts.len() {
            &self.parts[at]
        } else {
            &self.rest
        }
    }

    /// Item `i`, counted from 0. It takes no memory.
    pub(crate) fn item(&self, i: usize) -> &T
        requires laid { IsGrouped self.now }
        requires within { i < length (group_pairs self.now) }
        ensures { result.now ≡ (get_or (group_pairs self.now) i (result.now, 0)).0 }
    {
        let at = place(&self.firsts, i);
        self.part(at).item(i - self.firsts[at])
    }

    /// Appends a part to the others, and drops the rest. Out of memory, all stays as it was.
    pub(crate) fn add(
        &mut self,
        alloc: Global,
        part: Arc<Many<T>, Global>,
    ) -> Result<(), AllocError>
    where
        T: Drop,
        requires laid { IsGrouped self.old }
        requires part { IsPart (arc_value part) }
        requires room { total_of (each_pairs (parts_of self.old)) + total_of (many_pairs (arc_value part)) < 2 ^ 32 }
        ensures laid { IsGrouped self.new }
        ensures parts { OnOk result (each_pairs (parts_of self.new) ≡ each_pairs (parts_of self.old) ++ many_pairs (arc_value part)) }
        ensures rest { OnOk result (self.new.rest.chunks.items ≡ []) }
        ensures err { OnErr result (group_pairs self.new ≡ group_pairs self.old) }
    {
        let at = self.parts.len();
        let start = self.starts[at] + part.total;
        let first = self.firsts[at] + part.len;
        self.starts.reserve(1)?;
        self.firsts.reserve(1)?;
        self.parts.push(part)?;
        self.starts.push(start)?;
        self.firsts.push(first)?;
        self.rest = Many::new(alloc);
        Ok(())
    }
}
