//! Runs of shared items, after the others and as chunks of their own.
ghost use Rattle.std.specs.Prelude.{◌≡◌, ◌+◌, ◌<◌, ◌≤◌, ◌^◌, ◌++◌, length, IfOk, OnOk, OnErr};
ghost use Rattle.pm_sized.specs.Pairs.{total_of, IsLaid, IsFew, IsMany, IsGrouped};
ghost use Rattle.pm_sized.specs.Parts.{part, values_in, many_values, group_values, values_of, Appended, HasFirst};

use crate::chunks::Chunks;
use crate::few::Few;
use crate::groups::Groups;
use crate::halves::place;
use crate::many::{CHUNK, Many};
use std::alloc::{AllocError, Global};
use std::sync::Arc;

impl<T: Drop> Chunks<Arc<T, Global>> {
    /// The items from..to, as chunks of their own, of which each that lies between them is shared with these.
    pub fn cut(
        &self,
        alloc: Global,
        from: usize,
        to: usize,
    ) -> Result<Chunks<Arc<T, Global>>, AllocError>
        requires laid { IsLaid self.now }
        requires order { from ≤ to }
        requires within { to ≤ length (values_of self.now) }
        ensures values { IfOk result (λ c. values_of c ≡ part from to (values_of self.now)) }
        ensures laid { IfOk result (λ c. IsLaid c) }
    {
        let mut made = Chunks::new(alloc);
        made.append(alloc, self, from, to)?;
        Ok(made)
    }

    /// Appends the items from..to of other chunks, shared with them: whole chunks at once, but for those at
    /// the two ends. Out of memory, the first of them may be there, and the others are not.
    pub fn append(
        &mut self,
        alloc: Global,
        source: &Chunks<Arc<T, Global>>,
        from: usize,
        to: usize,
    ) -> Result<(), AllocError>
        requires laid { IsLaid self.old }
        requires source { IsLaid source.now }
        requires order { from ≤ to }
        requires within { to ≤ length (values_of source.now) }
        requires room { total_of (values_of self.old) + total_of (part from to (values_of source.now)) < 2 ^ 32 }
        ensures laid { IsLaid self.new }
        ensures ok { OnOk result (values_of self.new ≡ values_of self.old ++ part from to (values_of source.now)) }
        ensures err { OnErr result (HasFirst (values_of self.old) (values_of source.now) from to (values_of self.new)) }
    {
        let mut i = from;
        while i < to {
            i += self.append_next(alloc, source, i, to)?;
        }
        Ok(())
    }

    /// Puts after the last item item `i`, with those from it on that lie in its chunk and before `to`. It answers how many.
    fn append_next(
        &mut self,
        alloc: Global,
        source: &Chunks<Arc<T, Global>>,
        i: usize,
        to: usize,
    ) -> Result<usize, AllocError>
        requires laid { IsLaid self.old }
        requires source { IsLaid source.now }
        requires some { i < to }
        requires within { to ≤ length (values_of source.now) }
        requires room { total_of (values_of self.old) + total_of (part i to (values_of source.now)) < 2 ^ 32 }
        ensures laid { IsLaid self.new }
        ensures ok { IfOk result (λ n. Appended (values_of self.old) (values_of source.now) i to n (values_of self.new)) }
        ensures err { OnErr result (HasFirst (values_of self.old) (values_of source.now) i to (values_of self.new)) }
    {
        match source {
            Chunks::Few(few) => {
                self.append_one(alloc, few, i)?;
                Ok(1)
            }
            Chunks::Many(many) => self.append_run(alloc, many, i, to),
            Chunks::Groups(groups) => self.append_part(alloc, groups, i, to),
        }
    }

    /// Puts item `i` of few after the last one, shared with them.
    fn append_one(
        &mut self,
        alloc: Global,
        source: &Few<Arc<T, Global>>,
        i: usize,
    ) -> Result<(), AllocError>
        requires laid { IsLaid self.old }
        requires source { IsFew source.now }
        requires within { i < length source.now.items.items }
        requires room { total_of (values_of self.old) + total_of (part i (i + 1) (values_in source.now.items.items)) < 2 ^ 32 }
        ensures laid { IsLaid self.new }
        ensures ok { OnOk result (values_of self.new ≡ values_of self.old ++ part i (i + 1) (values_in source.now.items.items)) }
        ensures err { OnErr result (values_of self.new ≡ values_of self.old) }
    {
        let entry = &source.items[i];
        let item = Arc::try_clone(&entry.0)?;
        self.push(alloc, item, entry.1)?;
        Ok(())
    }

    /// Puts after the last item those from item `i` on that lie in its chunk and before `to`. It answers how many.
    fn append_run(
        &mut self,
        alloc: Global,
        source: &Many<Arc<T, Global>>,
        i: usize,
        to: usize,
    ) -> Result<usize, AllocError>
        requires laid { IsLaid self.old }
        requires source { IsMany source.now }
        requires some { i < to }
        requires within { to ≤ length (many_values source.now) }
        requires room { total_of (values_of self.old) + total_of (part i to (many_values source.now)) < 2 ^ 32 }
        ensures laid { IsLaid self.new }
        ensures ok { IfOk result (λ n. Appended (values_of self.old) (many_values source.now) i to n (values_of self.new)) }
        ensures err { OnErr result (HasFirst (values_of self.old) (many_values source.now) i to (values_of self.new)) }
    {
        if self.takes(source.left(i, to)) {
            self.append_item(alloc, source, i)?;
            return Ok(1);
        }
        let chunk = source.run_at(alloc, i, to)?;
        let count = chunk.items.len();
        self.put(alloc, chunk)?;
        Ok(count)
    }

    /// Whether so many items have room in the last chunk, which then grows by one after another, so that none is copied
    /// twice. It takes no memory.
    fn takes(&self, count: usize) -> bool {
        match self {
            Chunks::Few(_) | Chunks::Groups(_) => false,
            Chunks::Many(many) => {
                let chunks = many.chunks.len();
                if chunks == 0 {
                    return false;
                }
                let len = many.chunks[chunks - 1].items.len();
                len < CHUNK && count <= CHUNK - len
            }
        }
    }

    /// Puts item `i` after the last one, shared with them.
    fn append_item(
        &mut self,
        alloc: Global,
        source: &Many<Arc<T, Global>>,
        i: usize,
    ) -> Result<(), AllocError>
        requires laid { IsLaid self.old }
        requires source { IsMany source.now }
        requires within { i < length (many_values source.now) }
        requires room { total_of (values_of self.old) + total_of (part i (i + 1) (many_values source.now)) < 2 ^ 32 }
        ensures laid { IsLaid self.new }
        ensures ok { OnOk result (values_of self.new ≡ values_of self.old ++ part i (i + 1) (many_values source.now)) }
        ensures err { OnErr result (values_of self.new ≡ values_of self.old) }
    {
        let item = Arc::try_clone(source.item(i))?;
        self.push(alloc, item, source.measure(i))?;
        Ok(())
    }

    /// Puts after the last item those from item `i` on that lie in its part and before `to`, all at once where they are a
    /// whole part that can be shared, else those of a chunk. It answers how many.
    fn append_part(
        &mut self,
        alloc: Global,
        source: &Groups<Arc<T, Global>>,
        i: usize,
        to: usize,
    ) -> Result<usize, AllocError>
        requires laid { IsLaid self.old }
        requires source { IsGrouped source.now }
        requires some { i < to }
        requires within { to ≤ length (group_values source.now) }
        requires room { total_of (values_of self.old) + total_of (part i to (group_values source.now)) < 2 ^ 32 }
        ensures laid { IsLaid self.new }
        ensures ok { IfOk result (λ n. Appended (values_of self.old) (group_values source.now) i to n (values_of self.new)) }
        ensures err { OnErr result (HasFirst (values_of self.old) (group_values source.now) i to (values_of self.new)) }
    {
        let at = place(&source.firsts, i);
        let from = i - source.firsts[at];
        let part = source.part(at);
        let end = part.len.min(from + (to - i));
        if at < source.parts.len() && from == 0 && end == part.len {
            if self.share(alloc, &source.parts[at])? {
                return Ok(end);
            }
        }
        self.append_run(alloc, part, from, end)
    }
}
