//! Items in order, few or many.
ghost use Rattle.std.specs.Prelude.{◌≡◌, ◌<◌, ◌^◌, [], length, get_or, IfOk};
ghost use Rattle.pm_sized.specs.Pairs.{pairs_of, total_of, EachCounts, IsLaid};

use crate::few::{FEW, Few};
use crate::groups::Groups;
use crate::many::Many;
use std::alloc::{AllocError, Global};

/// Items in order, each with its measure. Up to six may lie in one list, so that few items take one allocation; any number
/// lie in chunks, which are shared, and very many in parts of 64 chunks, which are shared too.
#[derive(Drop)]
pub enum Chunks<T> {
    /// At most six items, in no chunk.
    Few(Few<T>),
    /// Items in chunks.
    Many(Many<T>),
    /// Items in parts of chunks, where they take more than 64 chunks.
    Groups(Box<Groups<T>, Global>),
}

impl<T> Chunks<T> {
    /// No items. It takes no memory.
    pub fn new(alloc: Global) -> Chunks<T>
        ensures pairs { pairs_of result ≡ [] }
        ensures laid { IsLaid result }
    {
        Chunks::Few(Few::new(alloc))
    }

    /// The items with their measures: up to six as they are, more in chunks of 32 but the last. Out of memory, they are
    /// dropped.
    pub fn from_vec(alloc: Global, items: Vec<(T, usize)>) -> Result<Chunks<T>, AllocError>
    where
        T: Drop,
        requires some { EachCounts items.items }
        requires room { total_of items.items < 2 ^ 32 }
        ensures pairs { IfOk result (λ c. pairs_of c ≡ items.items) }
        ensures laid { IfOk result (λ c. IsLaid c) }
    {
        if items.len() <= FEW {
            return Ok(Chunks::Few(Few::from_items(items)));
        }
        Ok(Chunks::Many(Many::from_vec(alloc, items)?))
    }

    /// The number of items. It takes no memory.
    pub fn len(&self) -> usize
        requires { IsLaid self.now }
        ensures { result ≡ length (pairs_of self.now) }
    {
        match self {
            Chunks::Few(few) => few.items.len(),
            Chunks::Many(many) => many.len,
            Chunks::Groups(groups) => groups.len(),
        }
    }

    /// The sum of the measures. It takes no memory.
    pub fn total(&self) -> usize
        requires { IsLaid self.now }
        ensures { result ≡ total_of (pairs_of self.now) }
    {
        match self {
            Chunks::Few(few) => few.total,
            Chunks::Many(many) => many.total,
            Chunks::Groups(groups) => groups.total(),
        }
    }

    /// Item `i`, counted from 0. It takes no memory.
    pub fn item(&self, i: usize) -> &T
        requires laid { IsLaid self.now }
        requires within { i < length (pairs_of self.now) }
        ensures { result.now ≡ (get_or (pairs_of self.now) i (result.now, 0)).0 }
    {
        match self {
            Chunks::Few(few) => &few.items[i].0,
            Chunks::Many(many) => many.item(i),
            Chunks::Groups(groups) => groups.item(i),
        }
    }
}
