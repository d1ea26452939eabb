//! A part of a document, lent.
ghost use Rattle.std.specs.Prelude.{◌≡◌, ◌≤◌, length, IfOk};
ghost use Rattle.pm_view.specs.Views.{IsView, Views};
ghost use Rattle.pm_view.specs.Sliced.{sliced};
ghost use Rattle.pm_view.specs.Seen.{ArePartsOf};

use crate::tokens::Tokens;
use crate::walk::depth_within;
use pm_node::{Document, Fragment};
use pm_slice::{CutError, Slice, cut_content};
use std::alloc::{AllocError, Global};
use std::marker::Model;

/// A part of a document, lent by it. A contract sees its tokens, where each close knows the node that it closes.
#[derive(Drop)]
pub struct SliceView<'a> {
    content: &'a Fragment,
    from: usize,
    to: usize,
}

impl<'a> Model for SliceView<'a> {
    ghost use Rattle.std.specs.Prelude.{List};
    ghost use Rattle.pm_view.specs.Known.{Known};
    ghost use Rattle.pm_view.specs.Codes.{known_code};

    ghost Value = { List Known };

    ghost coded = { known_code };

    ghost use Rattle.pm_slice.specs.Cuts.{InRange};
    ghost use Rattle.pm_view.specs.Views.{viewed};

    ghost view = { λ v. viewed v.content.now v.from v.to };

    ghost invariant = { λ v. InRange v.content.now v.from v.to };
}

/// The part from..to of a document. Range comes exactly where not from <= to <= size. It takes no memory, and copies no node
/// and no unit.
pub fn view<'a>(doc: &'a Document, from: usize, to: usize) -> Result<SliceView<'a>, CutError>
    ensures { Views doc.now.tokens from to result }
{
    let content = doc.content();
    if to < from {
        return Err(CutError::Range);
    }
    if content.size() < to {
        return Err(CutError::Range);
    }
    Ok(view_content(content, from, to))
}

/// The same of a content.
pub fn view_content<'a>(content: &'a Fragment, from: usize, to: usize) -> SliceView<'a>
    requires order { from ≤ to }
    requires within { to ≤ length content.now }
    ensures { IsView content.now from to result }
{
    let _ = content.size();
    SliceView { content, from, to }
}

impl<'a> SliceView<'a> {
    /// The number of its tokens. It takes no memory.
    pub fn size(&self) -> usize
        ensures { result ≡ length self.now }
    {
        self.to - self.from
    }

    /// It as a slice, as `cut` gives it: what stands around one of its ends and not around both is open. It shares each node
    /// but those around its ends.
    pub fn slice(&self, alloc: Global) -> Result<Slice, AllocError>
        ensures { IfOk result (λ s. s ≡ sliced self.now) }
    {
        let _ = self.content.size();
        cut_content(alloc, self.content, self.from, self.to)
    }

    /// Its parts in order, to be taken one by one. It takes memory for the nodes around a part, and for no part.
    pub fn tokens(&self, alloc: Global) -> Result<Tokens<'a>, AllocError>
        ensures { IfOk result (ArePartsOf self.now) }
    {
        let depth = depth_within(self.content, self.from, self.to);
        let outer = Vec::with_capacity(alloc, depth)?;
        Tokens::enter(self.content, self.from, self.to - self.from, outer)
    }
}
