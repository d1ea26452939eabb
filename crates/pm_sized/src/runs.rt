//! Chunks made of runs of shared items.
ghost use Rattle.std.specs.Prelude.{◌≡◌, ◌+◌, ◌-◌, ◌<◌, ◌≤◌, ◌^◌, ◌++◌, length, take, IfOk, OnOk};
ghost use Rattle.std.specs.Arc.{arc_value};
ghost use Rattle.pm_sized.specs.Pairs.{total_of, IsCounted, IsChunk, IsMany};
ghost use Rattle.pm_sized.specs.Parts.{part, chunk_values, many_values, IsRun};

use crate::chunk::Chunk;
use crate::halves::place;
use crate::many::Many;
use std::alloc::{AllocError, Global};
use std::sync::Arc;

impl<T: Drop> Chunk<Arc<T, Global>> {
    /// Appends the items from..to of another chunk, shared with it. After an error the chunk is of no use.
    pub(crate) fn append_run(
        &mut self,
        source: &Chunk<Arc<T, Global>>,
        from: usize,
        to: usize,
    ) -> Result<(), AllocError>
        requires counted { IsCounted self.old.items.items self.old.starts.items self.old.size }
        requires source { IsCounted source.now.items.items source.now.starts.items source.now.size }
        requires order { from ≤ to }
        requires within { to ≤ length source.now.items.items }
        requires room { self.old.size + source.now.size < 2 ^ 32 }
        ensures counted { OnOk result (IsCounted self.new.items.items self.new.starts.items self.new.size) }
        ensures values { OnOk result (chunk_values self.new ≡ chunk_values self.old ++ part from to (chunk_values source.now)) }
        ensures count { OnOk result (length self.new.items.items ≡ length self.old.items.items + (to - from)) }
    {
        for i in from..to {
            let item = Arc::try_clone(&source.items[i])?;
            self.push(item, source.measure(i))?;
        }
        Ok(())
    }
}

/// The items from..to of a chunk, as one of their own.
pub(crate) fn run<T: Drop>(
    alloc: Global,
    source: &Chunk<Arc<T, Global>>,
    from: usize,
    to: usize,
) -> Result<Arc<Chunk<Arc<T, Global>>, Global>, AllocError>
    requires source { IsChunk source.now }
    requires bound { source.now.size < 2 ^ 32 }
    requires order { from < to }
    requires within { to ≤ length source.now.items.items }
    ensures chunk { IfOk result (λ c. IsChunk (arc_value c)) }
    ensures values { IfOk result (λ c. chunk_values (arc_value c) ≡ part from to (chunk_values source.now)) }
    ensures count { IfOk result (λ c. length (arc_value c).items.items ≡ to - from) }
{
    let mut made = Chunk::with_room(alloc, to - from)?;
    made.append_run(source, from, to)?;
    Ok(Arc::new(alloc, made)?)
}

/// A chunk, with the first `count` items of another one after.
pub(crate) fn extended<T: Drop>(
    alloc: Global,
    chunk: &Chunk<Arc<T, Global>>,
    more: &Chunk<Arc<T, Global>>,
    count: usize,
) -> Result<Arc<Chunk<Arc<T, Global>>, Global>, AllocError>
    requires chunk { IsChunk chunk.now }
    requires more { IsChunk more.now }
    requires room { chunk.now.size + more.now.size < 2 ^ 32 }
    requires within { count ≤ length more.now.items.items }
    requires few { length chunk.now.items.items + count ≤ 63 }
    ensures chunk { IfOk result (λ c. IsChunk (arc_value c)) }
    ensures values { IfOk result (λ c. chunk_values (arc_value c) ≡ chunk_values chunk.now ++ take count (chunk_values more.now)) }
    ensures count { IfOk result (λ c. length (arc_value c).items.items ≡ length chunk.now.items.items + count) }
{
    let mut made = Chunk::with_room(alloc, chunk.items.len() + count)?;
    made.append_run(chunk, 0, chunk.items.len())?;
    made.append_run(more, 0, count)?;
    Ok(Arc::new(alloc, made)?)
}

impl<T: Drop> Many<Arc<T, Global>> {
    /// The items from item `i` on that lie in its chunk and before `to`: that chunk where they are all of it.
    pub(crate) fn run_at(
        &self,
        alloc: Global,
        i: usize,
        to: usize,
    ) -> Result<Arc<Chunk<Arc<T, Global>>, Global>, AllocError>
        requires laid { IsMany self.now }
        requires some { i < to }
        requires within { to ≤ length (many_values self.now) }
        ensures { IfOk result (λ c. IsRun (many_values self.now) i to (arc_value c)) }
    {
        let at = place(&self.firsts, i);
        let chunk = &self.chunks[at];
        let from = i - self.firsts[at];
        let count = chunk.items.len();
        let end = count.min(from + (to - i));
        if from == 0 && end == count {
            return Ok(Arc::try_clone(chunk)?);
        }
        Ok(run(alloc, chunk, from, end)?)
    }
}
