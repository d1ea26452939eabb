//! One chunk, and how it grows before it is shared.
ghost use Rattle.std.specs.Prelude.{◌≡◌, ◌+◌, ◌<◌, ◌≤◌, ◌^◌, [], ◌∷◌, ◌++◌, length, get_or, IfOk, OnOk, OnErr};
ghost use Rattle.pm_sized.specs.Pairs.{chunk_pairs, IsCounted, Grown};
ghost use Rattle.pm_sized.specs.Parts.{Unchanged};

use std::alloc::{AllocError, Global};

/// Neighbours among the items, with the sum of the measures before each of them in the chunk, its start.
#[derive(Drop)]
pub struct Chunk<T> {
    pub(crate) items: Vec<T>,
    pub(crate) starts: Vec<usize>,
    pub(crate) size: usize,
}

impl<T> Chunk<T> {
    /// No items. It takes no memory.
    pub(crate) fn new(alloc: Global) -> Chunk<T>
        ensures pairs { chunk_pairs result ≡ [] }
        ensures counted { IsCounted result.items.items result.starts.items result.size }
        ensures none { length result.items.items ≡ 0 }
        ensures size { result.size ≡ 0 }
    {
        Chunk {
            items: Vec::new(alloc),
            starts: Vec::new(alloc),
            size: 0,
        }
    }

    /// No items, with room for so many.
    pub(crate) fn with_room(alloc: Global, count: usize) -> Result<Chunk<T>, AllocError>
    where
        T: Drop,
        ensures pairs { IfOk result (λ c. chunk_pairs c ≡ []) }
        ensures counted { IfOk result (λ c. IsCounted c.items.items c.starts.items c.size) }
        ensures none { IfOk result (λ c. length c.items.items ≡ 0) }
        ensures size { IfOk result (λ c. c.size ≡ 0) }
    {
        Ok(Chunk {
            items: Vec::with_capacity(alloc, count)?,
            starts: Vec::with_capacity(alloc, count)?,
            size: 0,
        })
    }

    /// Appends an item. Out of memory, the chunk stays as it was, and the item is dropped.
    pub(crate) fn push(&mut self, item: T, measure: usize) -> Result<(), AllocError>
    where
        T: Drop,
        requires counted { IsCounted self.old.items.items self.old.starts.items self.old.size }
        requires some { 1 ≤ measure }
        requires room { self.old.size + measure < 2 ^ 32 }
        ensures ok { OnOk result (Grown self.old item measure self.new) }
        ensures err { OnErr result (Unchanged self.old self.new) }
    {
        self.starts.reserve(1)?;
        self.items.push(item)?;
        self.starts.push(self.size)?;
        self.size += measure;
        Ok(())
    }

    /// Where item `i` ends in the chunk. It takes no memory.
    fn end_of(&self, i: usize) -> usize
        requires counted { IsCounted self.now.items.items self.now.starts.items self.now.size }
        requires within { i < length self.now.items.items }
        ensures { result ≡ get_or self.now.starts.items (i + 1) self.now.size }
    {
        let next = i + 1;
        if next < self.starts.len() {
            self.starts[next]
        } else {
            self.size
        }
    }

    /// The measure of item `i`, counted from 0. It takes no memory.
    pub(crate) fn measure(&self, i: usize) -> usize
        requires counted { IsCounted self.now.items.items self.now.starts.items self.now.size }
        requires within { i < length self.now.items.items }
        ensures is { (x : T) → result ≡ (get_or (chunk_pairs self.now) i (x, 0)).1 }
        ensures some { 1 ≤ result }
    {
        self.end_of(i) - self.starts[i]
    }
}
