//! Shared items in parts: copied, put after others, and parts that are shared as wholes.
ghost use Rattle.std.specs.Prelude.{◌≡◌, ◌+◌, ◌<◌, ◌≤◌, ◌^◌, [], ◌∷◌, ◌++◌, if◌then◌else◌, length, IfOk, OnOk, OnErr};
ghost use Rattle.std.specs.Arc.{arc_value};
ghost use Rattle.pm_sized.specs.Pairs.{many_pairs, group_pairs, total_of, IsChunk, IsPart, IsGrouped};
ghost use Rattle.pm_sized.specs.Parts.{all_but_last, chunk_values, many_values, group_values, HasShortLast, HasFirst};

use crate::chunk::Chunk;
use crate::groups::{Groups, PART};
use crate::many::{CHUNK, Many};
use crate::runs::run;
use std::alloc::{AllocError, Global};
use std::sync::Arc;

impl<T: Drop> Groups<Arc<T, Global>> {
    /// The same items, of which each part is shared with these, and each chunk of the rest.
    pub(crate) fn copy(&self, alloc: Global) -> Result<Groups<Arc<T, Global>>, AllocError>
        requires laid { IsGrouped self.now }
        ensures pairs { IfOk result (λ g. group_pairs g ≡ group_pairs self.now) }
        ensures laid { IfOk result (λ g. IsGrouped g) }
    {
        let mut made = Groups::of(alloc, Many::new(alloc))?;
        for part in &self.parts {
            made.add(alloc, Arc::try_clone(part)?)?;
        }
        made.rest = self.rest.copy(alloc)?;
        Ok(made)
    }

    /// Makes a part of the rest, where that has 64 chunks of 32 items or more. Out of memory, all stays as it was.
    fn close(&mut self, alloc: Global) -> Result<(), AllocError>
        requires laid { IsGrouped self.old }
        ensures laid { IsGrouped self.new }
        ensures same { group_pairs self.new ≡ group_pairs self.old }
        ensures open { OnOk result (64 ≤ length self.new.rest.chunks.items → HasShortLast self.new.rest.chunks.items) }
        ensures fewer { OnOk result (length self.new.rest.chunks.items ≤ length self.old.rest.chunks.items) }
    {
        if self.rest.chunks.len() < PART || self.rest.ends_short() {
            return Ok(());
        }
        let part = Arc::new(alloc, self.rest.copy(alloc)?)?;
        self.add(alloc, part)
    }

    /// Makes the last part the rest, where that has no items. Out of memory, all stays as it was.
    fn reopen(&mut self, alloc: Global) -> Result<(), AllocError>
        requires laid { IsGrouped self.old }
        requires some { 0 < length (group_pairs self.old) }
        ensures laid { IsGrouped self.new }
        ensures same { group_pairs self.new ≡ group_pairs self.old }
        ensures some { OnOk result (0 < length (many_pairs self.new.rest)) }
    {
        if self.rest.len > 0 {
            return Ok(());
        }
        let rest = self.parts[self.parts.len() - 1].copy(alloc)?;
        let _ = self.parts.pop();
        let _ = self.starts.pop();
        let _ = self.firsts.pop();
        self.rest = rest;
        Ok(())
    }

    /// Appends an item. Out of memory, the items stay as they were, and this one is dropped.
    pub(crate) fn push(
        &mut self,
        alloc: Global,
        item: Arc<T, Global>,
        measure: usize,
    ) -> Result<(), AllocError>
        requires laid { IsGrouped self.old }
        requires some { 1 ≤ measure }
        requires room { total_of (group_values self.old) + measure < 2 ^ 32 }
        ensures laid { IsGrouped self.new }
        ensures ok { OnOk result (group_values self.new ≡ group_values self.old ++ (arc_value item, measure) ∷ []) }
        ensures err { OnErr result (group_values self.new ≡ group_values self.old) }
    {
        self.close(alloc)?;
        self.rest.push(alloc, item, measure)
    }

    /// Puts an item in the place of the last one. Out of memory, that one stays.
    pub(crate) fn set_last(
        &mut self,
        alloc: Global,
        item: Arc<T, Global>,
        measure: usize,
    ) -> Result<(), AllocError>
        requires laid { IsGrouped self.old }
        requires some { 0 < length (group_values self.old) }
        requires counts { 1 ≤ measure }
        requires room { total_of (all_but_last (group_values self.old)) + measure < 2 ^ 32 }
        ensures laid { IsGrouped self.new }
        ensures ok { OnOk result (group_values self.new ≡ all_but_last (group_values self.old) ++ (arc_value item, measure) ∷ []) }
        ensures err { OnErr result (group_values self.new ≡ group_values self.old) }
    {
        self.reopen(alloc)?;
        self.rest.set_last(alloc, item, measure)
    }

    /// Appends a chunk to the others. Out of memory, the first of its items may be there, and the others are not.
    pub(crate) fn put(
        &mut self,
        alloc: Global,
        chunk: Arc<Chunk<Arc<T, Global>>, Global>,
    ) -> Result<(), AllocError>
        requires laid { IsGrouped self.old }
        requires chunk { IsChunk (arc_value chunk) }
        requires room { total_of (group_values self.old) + total_of (chunk_values (arc_value chunk)) < 2 ^ 32 }
        ensures laid { IsGrouped self.new }
        ensures ok { OnOk result (group_values self.new ≡ group_values self.old ++ chunk_values (arc_value chunk)) }
        ensures err { OnErr result (HasFirst (group_values self.old) (chunk_values (arc_value chunk)) 0 (length (chunk_values (arc_value chunk))) (group_values self.new)) }
    {
        self.close(alloc)?;
        let count = chunk.items.len();
        if self.rest.chunks.len() < PART || count <= CHUNK {
            return self.put_small(alloc, chunk);
        }
        let first = run(alloc, &chunk, 0, CHUNK)?;
        let second = run(alloc, &chunk, CHUNK, count)?;
        self.put_small(alloc, first)?;
        self.put_small(alloc, second)
    }

    /// Appends a chunk to the others, where the rest has fewer than 64 chunks or this one at most 32 items. Out of memory,
    /// the items stay as they were.
    fn put_small(
        &mut self,
        alloc: Global,
        chunk: Arc<Chunk<Arc<T, Global>>, Global>,
    ) -> Result<(), AllocError>
        requires laid { IsGrouped self.old }
        requires chunk { IsChunk (arc_value chunk) }
        requires small { 64 ≤ length self.old.rest.chunks.items → length (arc_value chunk).items.items ≤ 32 }
        requires room { total_of (group_values self.old) + total_of (chunk_values (arc_value chunk)) < 2 ^ 32 }
        ensures laid { IsGrouped self.new }
        ensures ok { OnOk result (group_values self.new ≡ group_values self.old ++ chunk_values (arc_value chunk)) }
        ensures err { OnErr result (group_values self.new ≡ group_values self.old) }
    {
        self.close(alloc)?;
        self.rest.put(alloc, chunk)
    }

    /// Appends a part to the others and shares it, where the rest is a part too or has no items: `true`. Else nothing
    /// changes. Out of memory, all stays as it was.
    pub(crate) fn share(
        &mut self,
        alloc: Global,
        part: &Arc<Many<Arc<T, Global>>, Global>,
    ) -> Result<bool, AllocError>
        requires laid { IsGrouped self.old }
        requires part { IsPart (arc_value part.now) }
        requires room { total_of (group_values self.old) + total_of (many_values (arc_value part.now)) < 2 ^ 32 }
        ensures laid { IsGrouped self.new }
        ensures ok { IfOk result (λ shared. group_values self.new ≡ (if shared then group_values self.old ++ many_values (arc_value part.now) else group_values self.old)) }
        ensures err { OnErr result (group_values self.new ≡ group_values self.old) }
    {
        self.close(alloc)?;
        if self.rest.len > 0 {
            return Ok(false);
        }
        self.add(alloc, Arc::try_clone(part)?)?;
        Ok(true)
    }
}
