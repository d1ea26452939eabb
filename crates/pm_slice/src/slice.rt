//! Slices.
ghost use Rattle.std.specs.Prelude.{◌≡◌, ◌≤◌, ◌<◌, ◌+◌, ◌↔◌, ◌^◌, true, length, IsOk, IfOk, IfErr};
ghost use Rattle.pm_tokens.specs.Slices.{is_slice, slice_size};
ghost use Rattle.pm_slice.specs.Sides.{sides, or_none, no_slice};

use crate::spine::{ends_open, starts_open};
use pm_node::Fragment;
use std::alloc::{AllocError, Global};
use std::marker::Model;

/// A content whose first `open_start` tokens, which are opens, and whose last `open_end` tokens, which are closes, are not
/// part of the slice: these nodes are open at its start and at its end.
/// ProseMirror: `Slice`.
#[derive(Drop)]
pub struct Slice {
    pub(crate) content: Fragment,
    pub(crate) open_start: usize,
    pub(crate) open_end: usize,
}

impl Model for Slice {
    ghost use Rattle.pm_tokens.specs.Slices as slices;
    ghost use Rattle.pm_slice.specs.Sides.{sides, slice_code, IsKept};

    ghost Value = { slices.Slice };

    ghost coded = { slice_code };

    ghost view = { λ s. sides s.content s.open_start s.open_end };

    ghost invariant = { λ s. IsKept (sides s.content s.open_start s.open_end) };
}

impl Slice {
    /// The slice of this content with these open sides. The content comes back exactly where a side is deeper than the nodes
    /// that stand first, or last, within one another and are no leaf and no text. A slice of no tokens is the empty one, with
    /// both sides 0. It takes no memory.
    pub fn new(
        alloc: Global,
        content: Fragment,
        open_start: usize,
        open_end: usize,
    ) -> Result<Slice, Fragment>
        ensures fits { IsOk result ↔ (is_slice (sides content open_start open_end) ≡ true) }
        ensures made { IfOk result (λ s. s ≡ or_none (sides content open_start open_end)) }
        ensures back { IfErr result (λ f. f ≡ content) }
    {
        let size = content.size();
        if !starts_open(&content, open_start) || !ends_open(&content, open_end) {
            return Err(content);
        }
        if open_start + open_end == size {
            return Ok(Slice::empty(alloc));
        }
        Ok(Slice {
            content,
            open_start,
            open_end,
        })
    }

    /// The slice of no tokens. It takes no memory.
    pub fn empty(alloc: Global) -> Slice
        ensures { result ≡ no_slice }
    {
        Slice {
            content: Fragment::new(alloc),
            open_start: 0,
            open_end: 0,
        }
    }

    /// The number of the slice's own tokens. It takes no memory.
    pub fn size(&self) -> usize
        ensures size { result ≡ slice_size self.now }
        ensures bound { result < 2 ^ 32 }
        ensures slice { is_slice self.now ≡ true }
        ensures one { or_none self.now ≡ self.now }
    {
        let size = self.content.size();
        size - self.open_end - self.open_start
    }

    /// The content, with the nodes that are open. It takes no memory.
    pub fn content(&self) -> &Fragment
        ensures { result.now ≡ self.now.content }
    {
        &self.content
    }

    /// How many nodes are open at the start. It takes no memory.
    pub fn open_start(&self) -> usize
        ensures side { result ≡ self.now.open_start }
        ensures bound { result < 2 ^ 32 }
    {
        let _ = self.content.size();
        self.open_start
    }

    /// How many nodes are open at the end. It takes no memory.
    pub fn open_end(&self) -> usize
        ensures side { result ≡ self.now.open_end }
        ensures bound { result < 2 ^ 32 }
    {
        let _ = self.content.size();
        self.open_end
    }

    /// The same slice, which shares its nodes with this one.
    pub fn copy(&self, alloc: Global) -> Result<Slice, AllocError>
        ensures { IfOk result (λ s. s ≡ self.now) }
    {
        Ok(Slice {
            content: self.content.copy(alloc)?,
            open_start: self.open_start,
            open_end: self.open_end,
        })
    }
}
