//! Few items, in no chunk.
ghost use Rattle.std.specs.Prelude.{◌≡◌, ◌+◌, ◌<◌, ◌≤◌, ◌^◌, [], ◌∷◌, ◌++◌, length, IfOk, OnOk, OnErr};
ghost use Rattle.pm_sized.specs.Pairs.{total_of, EachCounts, IsFew, IsMany};
ghost use Rattle.pm_sized.specs.Parts.{all_but_last, values_in, many_values};

use crate::many::Many;
use std::alloc::{AllocError, Global};
use std::mem;
use std::sync::Arc;

/// The greatest number of items that lie in no chunk. A search looks at one after another, in no more steps than are counted
/// for a chunk.
pub(crate) const FEW: usize = 6;

/// At most six items in order, each with its measure, and the sum of the measures.
#[derive(Drop)]
pub struct Few<T> {
    pub(crate) items: Vec<(T, usize)>,
    pub(crate) total: usize,
}

impl<T> Few<T> {
    /// No items. It takes no memory.
    pub(crate) fn new(alloc: Global) -> Few<T>
        ensures items { result.items.items ≡ [] }
        ensures few { IsFew result }
    {
        Few {
            items: Vec::new(alloc),
            total: 0,
        }
    }

    /// These items with their measures. It takes no memory.
    pub(crate) fn from_items(items: Vec<(T, usize)>) -> Few<T>
        requires most { length items.items ≤ 6 }
        requires some { EachCounts items.items }
        requires room { total_of items.items < 2 ^ 32 }
        ensures items { result.items.items ≡ items.items }
        ensures few { IsFew result }
    {
        let mut total = 0;
        for entry in &items {
            total += entry.1;
        }
        Few { items, total }
    }

    /// Appends an item. Out of memory, the items stay as they were, and this one is dropped.
    pub(crate) fn push(&mut self, item: T, measure: usize) -> Result<(), AllocError>
    where
        T: Drop,
        requires few { IsFew self.old }
        requires fewer { length self.old.items.items < 6 }
        requires some { 1 ≤ measure }
        requires room { total_of self.old.items.items + measure < 2 ^ 32 }
        ensures few { IsFew self.new }
        ensures ok { OnOk result (self.new.items.items ≡ self.old.items.items ++ (item, measure) ∷ []) }
        ensures err { OnErr result (self.new.items.items ≡ self.old.items.items) }
    {
        self.items.push((item, measure))?;
        self.total += measure;
        Ok(())
    }

    /// Puts an item in the place of the last one. It takes no memory.
    pub(crate) fn set_last(&mut self, item: T, measure: usize)
    where
        T: Drop,
        requires few { IsFew self.old }
        requires some { 0 < length self.old.items.items }
        requires counts { 1 ≤ measure }
        requires room { total_of (all_but_last self.old.items.items) + measure < 2 ^ 32 }
        ensures few { IsFew self.new }
        ensures items { self.new.items.items ≡ all_but_last self.old.items.items ++ (item, measure) ∷ [] }
    {
        let at = self.items.len() - 1;
        let last = mem::replace(&mut self.items[at], (item, measure));
        self.total = self.total - last.1 + measure;
    }
}

impl<T: Drop> Few<Arc<T, Global>> {
    /// The same items, shared with these.
    pub(crate) fn copy(&self, alloc: Global) -> Result<Few<Arc<T, Global>>, AllocError>
        requires few { IsFew self.now }
        ensures values { IfOk result (λ f. values_in f.items.items ≡ values_in self.now.items.items) }
        ensures few { IfOk result (λ f. IsFew f) }
    {
        let mut made = Few::new(alloc);
        for entry in &self.items {
            made.push(Arc::try_clone(&entry.0)?, entry.1)?;
        }
        Ok(made)
    }

    /// The same items in chunks, shared with these.
    pub(crate) fn widened(&self, alloc: Global) -> Result<Many<Arc<T, Global>>, AllocError>
        requires few { IsFew self.now }
        ensures values { IfOk result (λ m. many_values m ≡ values_in self.now.items.items) }
        ensures laid { IfOk result (λ m. IsMany m) }
    {
        let mut made = Many::new(alloc);
        for entry in &self.items {
            made.push(alloc, Arc::try_clone(&entry.0)?, entry.1)?;
        }
        Ok(made)
    }
}
