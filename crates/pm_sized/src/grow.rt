//! Shared items in chunks, one by one after the others, and chunks of them.
ghost use Rattle.std.specs.Prelude.{◌≡◌, ◌+◌, ◌-◌, ◌<◌, ◌≤◌, ◌^◌, [], ◌∷◌, ◌++◌, length, take, true, false, IfOk, OnOk, OnErr};
ghost use Rattle.std.specs.Arc.{arc_value};
ghost use Rattle.pm_sized.specs.Pairs.{many_pairs, all_pairs, chunk_pairs, total_of, IsMany, IsChunk, AreFull};
ghost use Rattle.pm_sized.specs.Parts.{all_but_last, chunk_values, many_values, HasShortLast, HasGrown, StaysShort, Lengthened};

use crate::chunk::Chunk;
use crate::many::{CHUNK, Many};
use crate::runs::{extended, run};
use std::alloc::{AllocError, Global};
use std::sync::Arc;

/// The greatest number of items of a chunk.
const MOST: usize = 63;

impl<T: Drop> Many<T> {
    /// Appends an item, in its chunk, where that has fewer than 32 items and nothing else shares it. Else the
    /// item comes back, and nothing changes. Out of memory, the items stay as they were, and this one is dropped.
    fn grow(&mut self, item: T, measure: usize) -> Result<Option<T>, AllocError>
        requires laid { IsMany self.old }
        requires some { 1 ≤ measure }
        requires room { total_of (many_pairs self.old) + measure < 2 ^ 32 }
        ensures laid { IsMany self.new }
        ensures ok { IfOk result (λ back. HasGrown (many_pairs self.old) item measure back (many_pairs self.new)) }
        ensures err { OnErr result (many_pairs self.new ≡ many_pairs self.old) }
        ensures chunks { length self.new.chunks.items ≡ length self.old.chunks.items }
        ensures short { IfOk result (λ back. StaysShort back self.old.chunks.items self.new.chunks.items) }
    {
        let count = self.chunks.len();
        if count == 0 || self.chunks[count - 1].items.len() >= CHUNK {
            return Ok(Some(item));
        }
        match Arc::get_mut(&mut self.chunks[count - 1]) {
            None => return Ok(Some(item)),
            Some(chunk) => chunk.push(item, measure)?,
        }
        self.total += measure;
        self.len += 1;
        Ok(None)
    }
}

impl<T: Drop> Many<Arc<T, Global>> {
    /// Appends an item. Out of memory, the items stay as they were, and this one is dropped.
    pub(crate) fn push(
        &mut self,
        alloc: Global,
        item: Arc<T, Global>,
        measure: usize,
    ) -> Result<(), AllocError>
        requires laid { IsMany self.old }
        requires some { 1 ≤ measure }
        requires room { total_of (many_values self.old) + measure < 2 ^ 32 }
        ensures laid { IsMany self.new }
        ensures ok { OnOk result (many_values self.new ≡ many_values self.old ++ (arc_value item, measure) ∷ []) }
        ensures err { OnErr result (many_values self.new ≡ many_values self.old) }
        ensures chunks { Lengthened self.old.chunks.items self.new.chunks.items 1 }
    {
        if let Some(item) = self.grow(item, measure)? {
            let mut one = Chunk::new(alloc);
            one.push(item, measure)?;
            self.put(alloc, Arc::new(alloc, one)?)?;
        }
        Ok(())
    }

    /// Puts an item in the place of the last one. Out of memory, that one stays.
    pub(crate) fn set_last(
        &mut self,
        alloc: Global,
        item: Arc<T, Global>,
        measure: usize,
    ) -> Result<(), AllocError>
        requires laid { IsMany self.old }
        requires some { 0 < length (many_values self.old) }
        requires counts { 1 ≤ measure }
        requires room { total_of (all_but_last (many_values self.old)) + measure < 2 ^ 32 }
        ensures laid { IsMany self.new }
        ensures ok { OnOk result (many_values self.new ≡ all_but_last (many_values self.old) ++ (arc_value item, measure) ∷ []) }
        ensures err { OnErr result (many_values self.new ≡ many_values self.old) }
        ensures chunks { length self.new.chunks.items ≡ length self.old.chunks.items }
    {
        let last = &self.chunks[self.chunks.len() - 1];
        let mut made = Chunk::new(alloc);
        made.append_run(last, 0, last.items.len() - 1)?;
        made.push(item, measure)?;
        let _ = self.replace_last(Arc::new(alloc, made)?);
        Ok(())
    }

    /// Appends a chunk to the others, which is shared where the last one has 32 items or more. Else its items are put after
    /// those of the last chunk as far as they have room there, and the others after it. Out of memory, the items stay as
    /// they were.
    pub(crate) fn put(
        &mut self,
        alloc: Global,
        chunk: Arc<Chunk<Arc<T, Global>>, Global>,
    ) -> Result<(), AllocError>
        requires laid { IsMany self.old }
        requires chunk { IsChunk (arc_value chunk) }
        requires room { total_of (many_values self.old) + total_of (chunk_values (arc_value chunk)) < 2 ^ 32 }
        ensures laid { IsMany self.new }
        ensures ok { OnOk result (many_values self.new ≡ many_values self.old ++ chunk_values (arc_value chunk)) }
        ensures err { OnErr result (many_values self.new ≡ many_values self.old) }
        ensures chunks { Lengthened self.old.chunks.items self.new.chunks.items (length (arc_value chunk).items.items) }
    {
        if self.ends_short() {
            return self.merge(alloc, chunk);
        }
        self.push_chunk(chunk)?;
        Ok(())
    }

    /// Whether there is a last chunk, of fewer than 32 items.
    pub(crate) fn ends_short(&self) -> bool
        requires laid { IsMany self.now }
        ensures yes { result ≡ true → HasShortLast self.now.chunks.items }
        ensures no { result ≡ false → AreFull self.now.chunks.items }
    {
        let count = self.chunks.len();
        count > 0 && self.chunks[count - 1].items.len() < CHUNK
    }

    /// Puts a chunk's items after those of the last chunk, which has fewer than 32: all where they are 63 at most together,
    /// else so many that it has 32.
    fn merge(
        &mut self,
        alloc: Global,
        chunk: Arc<Chunk<Arc<T, Global>>, Global>,
    ) -> Result<(), AllocError>
        requires laid { IsMany self.old }
        requires short { HasShortLast self.old.chunks.items }
        requires chunk { IsChunk (arc_value chunk) }
        requires room { total_of (many_values self.old) + total_of (chunk_values (arc_value chunk)) < 2 ^ 32 }
        ensures laid { IsMany self.new }
        ensures ok { OnOk result (many_values self.new ≡ many_values self.old ++ chunk_values (arc_value chunk)) }
        ensures err { OnErr result (many_values self.new ≡ many_values self.old) }
        ensures chunks { Lengthened self.old.chunks.items self.new.chunks.items (length (arc_value chunk).items.items) }
    {
        let last = &self.chunks[self.chunks.len() - 1];
        let count = chunk.items.len();
        if last.items.len() + count <= MOST {
            let all = extended(alloc, last, &chunk, count)?;
            let _ = self.replace_last(all);
            return Ok(());
        }
        let taken = CHUNK - last.items.len();
        let full = extended(alloc, last, &chunk, taken)?;
        let rest = run(alloc, &chunk, taken, count)?;
        self.replace_by_two(full, rest)?;
        Ok(())
    }

    /// Puts two chunks in the place of the last one. Out of memory, it stays.
    fn replace_by_two(
        &mut self,
        full: Arc<Chunk<Arc<T, Global>>, Global>,
        rest: Arc<Chunk<Arc<T, Global>>, Global>,
    ) -> Result<(), AllocError>
        requires laid { IsMany self.old }
        requires some { 0 < length self.old.chunks.items }
        requires full { IsChunk (arc_value full) }
        requires enough { 32 ≤ length (arc_value full).items.items }
        requires rest { IsChunk (arc_value rest) }
        requires room { total_of (all_pairs (all_but_last self.old.chunks.items)) + total_of (chunk_pairs (arc_value full)) + total_of (chunk_pairs (arc_value rest)) < 2 ^ 32 }
        ensures laid { IsMany self.new }
        ensures ok { OnOk result (self.new.chunks.items ≡ (all_but_last self.old.chunks.items ++ full ∷ []) ++ rest ∷ []) }
        ensures err { OnErr result (self.new.chunks.items ≡ self.old.chunks.items) }
    {
        let last = self.replace_last(full);
        match self.push_chunk(rest) {
            Ok(()) => Ok(()),
            Err(AllocError) => {
                let _ = self.replace_last(last);
                Err(AllocError)
            }
        }
    }
}
