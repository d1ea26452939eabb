//! Shared items, copied and put after others.
ghost use Rattle.std.specs.Prelude.{◌≡◌, ℕ, ◌+◌, ◌<◌, ◌≤◌, ◌^◌, [], ◌∷◌, ◌++◌, if◌then◌else◌, length, true, IfOk, OnOk, OnErr};
ghost use Rattle.std.specs.Arc.{arc_value};
ghost use Rattle.pm_sized.specs.Pairs.{total_of, IsLaid, IsChunk, IsPart};
ghost use Rattle.pm_sized.specs.Parts.{all_but_last, chunk_values, many_values, values_of, IsBelow, Widened, Deepened, HasFirst};

use crate::chunk::Chunk;
use crate::chunks::Chunks;
use crate::few::FEW;
use crate::groups::{Groups, PART};
use crate::many::Many;
use std::alloc::{AllocError, Global};
use std::sync::Arc;

impl<T: Drop> Chunks<Arc<T, Global>> {
    /// The same items, shared with these, whole chunks at once.
    pub fn copy(&self, alloc: Global) -> Result<Chunks<Arc<T, Global>>, AllocError>
        requires laid { IsLaid self.now }
        ensures values { IfOk result (λ c. values_of c ≡ values_of self.now) }
        ensures laid { IfOk result (λ c. IsLaid c) }
    {
        match self {
            Chunks::Few(few) => Ok(Chunks::Few(few.copy(alloc)?)),
            Chunks::Many(many) => Ok(Chunks::Many(many.copy(alloc)?)),
            Chunks::Groups(groups) => Ok(Chunks::Groups(Box::new(alloc, groups.copy(alloc)?)?)),
        }
    }

    /// Appends an item. Out of memory, the items stay as they were, and this one is dropped.
    pub fn push(
        &mut self,
        alloc: Global,
        item: Arc<T, Global>,
        measure: usize,
    ) -> Result<(), AllocError>
        requires laid { IsLaid self.old }
        requires some { 1 ≤ measure }
        requires room { total_of (values_of self.old) + measure < 2 ^ 32 }
        ensures laid { IsLaid self.new }
        ensures ok { OnOk result (values_of self.new ≡ values_of self.old ++ (arc_value item, measure) ∷ []) }
        ensures err { OnErr result (values_of self.new ≡ values_of self.old) }
    {
        self.widen(alloc, FEW)?;
        self.deepen(alloc)?;
        match self {
            Chunks::Few(few) => few.push(item, measure),
            Chunks::Many(many) => many.push(alloc, item, measure),
            Chunks::Groups(groups) => groups.push(alloc, item, measure),
        }
    }

    /// Puts an item in the place of the last one. Out of memory, that one stays.
    pub fn set_last(
        &mut self,
        alloc: Global,
        item: Arc<T, Global>,
        measure: usize,
    ) -> Result<(), AllocError>
        requires laid { IsLaid self.old }
        requires some { 0 < length (values_of self.old) }
        requires counts { 1 ≤ measure }
        requires room { total_of (all_but_last (values_of self.old)) + measure < 2 ^ 32 }
        ensures laid { IsLaid self.new }
        ensures ok { OnOk result (values_of self.new ≡ all_but_last (values_of self.old) ++ (arc_value item, measure) ∷ []) }
        ensures err { OnErr result (values_of self.new ≡ values_of self.old) }
    {
        match self {
            Chunks::Few(few) => {
                few.set_last(item, measure);
                Ok(())
            }
            Chunks::Many(many) => many.set_last(alloc, item, measure),
            Chunks::Groups(groups) => groups.set_last(alloc, item, measure),
        }
    }

    /// Appends the items of a chunk to the others, which then lie in chunks. Out of memory, the first of them may be there,
    /// and the others are not.
    pub(crate) fn put(
        &mut self,
        alloc: Global,
        chunk: Arc<Chunk<Arc<T, Global>>, Global>,
    ) -> Result<(), AllocError>
        requires laid { IsLaid self.old }
        requires chunk { IsChunk (arc_value chunk) }
        requires room { total_of (values_of self.old) + total_of (chunk_values (arc_value chunk)) < 2 ^ 32 }
        ensures laid { IsLaid self.new }
        ensures ok { OnOk result (values_of self.new ≡ values_of self.old ++ chunk_values (arc_value chunk)) }
        ensures err { OnErr result (HasFirst (values_of self.old) (chunk_values (arc_value chunk)) 0 (length (chunk_values (arc_value chunk))) (values_of self.new)) }
    {
        self.widen(alloc, 0)?;
        self.deepen(alloc)?;
        match self {
            Chunks::Few(_) => unreachable!(),
            Chunks::Many(many) => many.put(alloc, chunk),
            Chunks::Groups(groups) => groups.put(alloc, chunk),
        }
    }

    /// Puts the items into chunks, where they lie in none and are `least` or more. Out of memory, they stay.
    fn widen(&mut self, alloc: Global, least: usize) -> Result<(), AllocError>
        requires laid { IsLaid self.old }
        ensures laid { IsLaid self.new }
        ensures values { values_of self.new ≡ values_of self.old }
        ensures below { OnOk result (IsBelow least self.new) }
    {
        if self.is_below(least) {
            return Ok(());
        }
        if let Some(many) = self.wider(alloc, least)? {
            *self = Chunks::Many(many);
        }
        Ok(())
    }

    /// Whether the items lie in chunks, or are fewer than `least`.
    fn is_below(&self, least: usize) -> bool
        ensures { result ≡ true → IsBelow least self.now }
    {
        match self {
            Chunks::Few(few) => few.items.len() < least,
            Chunks::Many(_) | Chunks::Groups(_) => true,
        }
    }

    /// The same items in chunks, where they lie in none and are `least` or more.
    fn wider(&self, alloc: Global, least: usize) -> Result<Option<Many<Arc<T, Global>>>, AllocError>
        requires laid { IsLaid self.now }
        ensures { IfOk result (λ o. Widened least self.now o) }
    {
        match self {
            Chunks::Few(few) => {
                if few.items.len() < least {
                    Ok(None)
                } else {
                    Ok(Some(few.widened(alloc)?))
                }
            }
            Chunks::Many(_) | Chunks::Groups(_) => Ok(None),
        }
    }

    /// Appends a part to the others and shares it, where all of these lie in parts, or are as many, or none: `true`. Else the
    /// items stay as they were. So they do out of memory.
    pub(crate) fn share(
        &mut self,
        alloc: Global,
        part: &Arc<Many<Arc<T, Global>>, Global>,
    ) -> Result<bool, AllocError>
        requires laid { IsLaid self.old }
        requires part { IsPart (arc_value part.now) }
        requires room { total_of (values_of self.old) + total_of (many_values (arc_value part.now)) < 2 ^ 32 }
        ensures laid { IsLaid self.new }
        ensures ok { IfOk result (λ shared. values_of self.new ≡ (if shared then values_of self.old ++ many_values (arc_value part.now) else values_of self.old)) }
        ensures err { OnErr result (values_of self.new ≡ values_of self.old) }
    {
        self.begin(alloc)?;
        self.deepen(alloc)?;
        match self {
            Chunks::Few(_) | Chunks::Many(_) => Ok(false),
            Chunks::Groups(groups) => groups.share(alloc, part),
        }
    }

    /// Makes groups of no items. Out of memory, and where there are items, they stay as they were.
    fn begin(&mut self, alloc: Global) -> Result<(), AllocError>
        requires laid { IsLaid self.old }
        ensures laid { IsLaid self.new }
        ensures values { values_of self.new ≡ values_of self.old }
    {
        if self.len() == 0 {
            let none = Groups::of(alloc, Many::new(alloc))?;
            *self = Chunks::Groups(Box::new(alloc, none)?);
        }
        Ok(())
    }

    /// Makes groups of items that take as many chunks as a part has. Out of memory, they stay as they were.
    fn deepen(&mut self, alloc: Global) -> Result<(), AllocError>
        requires laid { IsLaid self.old }
        ensures laid { IsLaid self.new }
        ensures values { values_of self.new ≡ values_of self.old }
        ensures below { (least : ℕ) → IsBelow least self.old → IsBelow least self.new }
    {
        if !self.fills_a_part() {
            return Ok(());
        }
        if let Some(groups) = self.deeper(alloc)? {
            *self = Chunks::Groups(groups);
        }
        Ok(())
    }

    /// Whether the items take as many chunks as a part has.
    fn fills_a_part(&self) -> bool {
        match self {
            Chunks::Few(_) | Chunks::Groups(_) => false,
            Chunks::Many(many) => many.chunks.len() == PART,
        }
    }

    /// The same items in groups, where they take as many chunks as a part has.
    fn deeper(
        &self,
        alloc: Global,
    ) -> Result<Option<Box<Groups<Arc<T, Global>>, Global>>, AllocError>
        requires laid { IsLaid self.now }
        ensures { IfOk result (λ o. Deepened self.now o) }
    {
        match self {
            Chunks::Few(_) | Chunks::Groups(_) => Ok(None),
            Chunks::Many(many) => {
                if many.chunks.len() != PART {
                    return Ok(None);
                }
                let groups = Groups::of(alloc, many.copy(alloc)?)?;
                Ok(Some(Box::new(alloc, groups)?))
            }
        }
    }
}
