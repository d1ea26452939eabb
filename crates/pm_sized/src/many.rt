//! Many items, in chunks.
ghost use Rattle.std.specs.Prelude.{◌≡◌, ◌+◌, ◌<◌, ◌≤◌, ◌^◌, [], ◌∷◌, ◌++◌, length, get_or, IfOk, OnOk, OnErr};
ghost use Rattle.std.specs.Arc.{arc_value};
ghost use Rattle.pm_sized.specs.Pairs.{chunk_pairs, all_pairs, many_pairs, total_of, EachCounts, IsChunk, AreFull, IsMany, IsBuilt, built_pairs, arc_values};
ghost use Rattle.pm_sized.specs.Parts.{all_but_last};

use crate::chunk::Chunk;
use crate::halves::place;
use std::alloc::{AllocError, Global};
use std::mem;
use std::sync::Arc;

/// The number of items of a new chunk.
pub(crate) const CHUNK: usize = 32;

/// Items in order, each with its measure, in chunks of 32 to 63 but the last, which has 1 to 63. Chunks are shared: beside
/// the reference to a chunk stand its start, the sum of the measures before it, and how many items are before it, and in the
/// chunk its items' starts from the chunk's own, so that a chunk can stand anywhere.
#[derive(Drop)]
pub struct Many<T> {
    pub(crate) chunks: Vec<Arc<Chunk<T>, Global>>,
    pub(crate) starts: Vec<usize>,
    pub(crate) firsts: Vec<usize>,
    pub(crate) total: usize,
    pub(crate) len: usize,
}

impl<T> Many<T> {
    /// No items. It takes no memory.
    pub(crate) fn new(alloc: Global) -> Many<T>
        ensures pairs { many_pairs result ≡ [] }
        ensures laid { IsMany result }
        ensures full { AreFull result.chunks.items }
        ensures none { result.chunks.items ≡ [] }
    {
        Many {
            chunks: Vec::new(alloc),
            starts: Vec::new(alloc),
            firsts: Vec::new(alloc),
            total: 0,
            len: 0,
        }
    }

    /// No items, with room for so many chunks.
    fn with_room(alloc: Global, chunks: usize) -> Result<Many<T>, AllocError>
    where
        T: Drop,
        ensures pairs { IfOk result (λ m. many_pairs m ≡ []) }
        ensures laid { IfOk result (λ m. IsMany m) }
    {
        Ok(Many {
            chunks: Vec::with_capacity(alloc, chunks)?,
            starts: Vec::with_capacity(alloc, chunks)?,
            firsts: Vec::with_capacity(alloc, chunks)?,
            total: 0,
            len: 0,
        })
    }

    /// The items with their measures, in chunks of 32 but the last. Out of memory, they are dropped.
    pub(crate) fn from_vec(alloc: Global, items: Vec<(T, usize)>) -> Result<Many<T>, AllocError>
    where
        T: Drop,
        requires some { EachCounts items.items }
        requires room { total_of items.items < 2 ^ 32 }
        ensures pairs { IfOk result (λ c. many_pairs c ≡ items.items) }
        ensures laid { IfOk result (λ c. IsMany c) }
    {
        let mut made = Many::new(alloc);
        let mut tail = Chunk::new(alloc);
        for (item, measure) in items {
            make_room(alloc, &mut made, &mut tail)?;
            tail.push(item, measure)?;
        }
        finish(alloc, made, tail)
    }

    /// Item `i`, counted from 0. It takes no memory.
    pub(crate) fn item(&self, i: usize) -> &T
        requires laid { IsMany self.now }
        requires within { i < length (many_pairs self.now) }
        ensures { result.now ≡ (get_or (many_pairs self.now) i (result.now, 0)).0 }
    {
        let at = place(&self.firsts, i);
        &self.chunks[at].items[i - self.firsts[at]]
    }

    /// The measure of item `i`, counted from 0. It takes no memory.
    pub(crate) fn measure(&self, i: usize) -> usize
        requires laid { IsMany self.now }
        requires within { i < length (many_pairs self.now) }
        ensures is { (x : T) → result ≡ (get_or (many_pairs self.now) i (x, 0)).1 }
        ensures some { 1 ≤ result }
    {
        let at = place(&self.firsts, i);
        self.chunks[at].measure(i - self.firsts[at])
    }

    /// How many items from item `i` on lie in its chunk and before `to`. It takes no memory.
    pub(crate) fn left(&self, i: usize, to: usize) -> usize
        requires laid { IsMany self.now }
        requires within { i < length (many_pairs self.now) }
    {
        let at = place(&self.firsts, i);
        let before = i.saturating_sub(self.firsts[at]);
        self.chunks[at]
            .items
            .len()
            .saturating_sub(before)
            .min(to.saturating_sub(i))
    }

    /// Appends a chunk, which is shared, where each chunk has 32 items or more. Out of memory, the chunks
    /// stay as they were.
    pub(crate) fn push_chunk(&mut self, chunk: Arc<Chunk<T>, Global>) -> Result<(), AllocError>
    where
        T: Drop,
        requires laid { IsMany self.old }
        requires full { AreFull self.old.chunks.items }
        requires chunk { IsChunk (arc_value chunk) }
        requires few { length (many_pairs self.old) + length (chunk_pairs (arc_value chunk)) < 2 ^ 32 }
        requires room { total_of (many_pairs self.old) + total_of (chunk_pairs (arc_value chunk)) < 2 ^ 32 }
        ensures chunks { OnOk result (self.new.chunks.items ≡ self.old.chunks.items ++ chunk ∷ []) }
        ensures laid { IsMany self.new }
        ensures err { OnErr result (self.new.chunks.items ≡ self.old.chunks.items) }
    {
        let size = chunk.size;
        let count = chunk.items.len();
        self.starts.reserve(1)?;
        self.firsts.reserve(1)?;
        self.chunks.push(chunk)?;
        self.starts.push(self.total)?;
        self.firsts.push(self.len)?;
        self.total += size;
        self.len += count;
        Ok(())
    }

    /// Puts a chunk in the place of the last one, and answers that one. It takes no memory.
    pub(crate) fn replace_last(&mut self, chunk: Arc<Chunk<T>, Global>) -> Arc<Chunk<T>, Global>
        requires laid { IsMany self.old }
        requires some { 0 < length self.old.chunks.items }
        requires chunk { IsChunk (arc_value chunk) }
        requires few { length (all_pairs (all_but_last self.old.chunks.items)) + length (chunk_pairs (arc_value chunk)) < 2 ^ 32 }
        requires room { total_of (all_pairs (all_but_last self.old.chunks.items)) + total_of (chunk_pairs (arc_value chunk)) < 2 ^ 32 }
        ensures chunks { self.new.chunks.items ≡ all_but_last self.old.chunks.items ++ chunk ∷ [] }
        ensures was { self.old.chunks.items ≡ all_but_last self.old.chunks.items ++ result ∷ [] }
        ensures laid { IsMany self.new }
    {
        let at = self.chunks.len() - 1;
        self.total = self.starts[at] + chunk.size;
        self.len = self.firsts[at] + chunk.items.len();
        mem::replace(&mut self.chunks[at], chunk)
    }

    /// The same items, of which each chunk is shared with these.
    pub(crate) fn copy(&self, alloc: Global) -> Result<Many<T>, AllocError>
    where
        T: Drop,
        requires laid { IsMany self.now }
        ensures pairs { IfOk result (λ c. many_pairs c ≡ many_pairs self.now) }
        ensures laid { IfOk result (λ c. IsMany c) }
        ensures chunks { IfOk result (λ c. arc_values c.chunks.items ≡ arc_values self.now.chunks.items) }
    {
        let mut made = Many::with_room(alloc, self.chunks.len())?;
        for chunk in &self.chunks {
            made.push_chunk(Arc::try_clone(chunk)?)?;
        }
        Ok(made)
    }
}

/// Appends the growing chunk to the others where it has 32 items, so that it has fewer. After an error both are of no use.
fn make_room<T: Drop>(
    alloc: Global,
    made: &mut Many<T>,
    tail: &mut Chunk<T>,
) -> Result<(), AllocError>
    requires built { IsBuilt made.old tail.old }
    requires few { length (built_pairs made.old tail.old) < 2 ^ 32 }
    requires room { total_of (built_pairs made.old tail.old) < 2 ^ 32 }
    ensures built { IfOk result (λ _. IsBuilt made.new tail.new) }
    ensures pairs { IfOk result (λ _. built_pairs made.new tail.new ≡ built_pairs made.old tail.old) }
    ensures fewer { IfOk result (λ _. length tail.new.items.items < 32) }
{
    if tail.items.len() < CHUNK {
        return Ok(());
    }
    let full = mem::replace(tail, Chunk::new(alloc));
    made.push_chunk(Arc::new(alloc, full)?)?;
    Ok(())
}

/// The chunks, with the growing one after the others where it has any item. Out of memory, all are dropped.
fn finish<T: Drop>(alloc: Global, made: Many<T>, tail: Chunk<T>) -> Result<Many<T>, AllocError>
    requires built { IsBuilt made tail }
    requires few { length (built_pairs made tail) < 2 ^ 32 }
    requires room { total_of (built_pairs made tail) < 2 ^ 32 }
    ensures pairs { IfOk result (λ c. many_pairs c ≡ built_pairs made tail) }
    ensures laid { IfOk result (λ c. IsMany c) }
{
    let mut made = made;
    if tail.items.len() == 0 {
        return Ok(made);
    }
    made.push_chunk(Arc::new(alloc, tail)?)?;
    Ok(made)
}
