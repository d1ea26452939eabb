//! Peeled slices with falling open sides.
ghost use Rattle.std.specs.Prelude.{◌≡◌, ◌+◌, ◌≤◌, ◌<◌, ◌^◌, ℕ, length, IfOk, IfSome, option_map, flat_map};
ghost use Rattle.pm_tokens.specs.Faults.{Valid};
ghost use Rattle.pm_schema.specs.Documents.{documents_of};
ghost use Rattle.pm_slice.specs.Sides.{sides};
ghost use Rattle.pm_fit.specs.Fitteds.{step_in, Makes};
ghost use Rattle.pm_fit.specs.Candidates.{falling, peelings, with_side, with_sides};
ghost use Rattle.pm_fit.specs.Firsts.{IsFirst};

use crate::fitted::Fitted;
use crate::peeling::peel;
use crate::target::Target;
use pm_node::Fragment;
use std::alloc::{AllocError, Global};

impl Target<'_> {
    /// The first step that fits of the content with open starts that fall from `open_start` to 0, where `left` and `right` are
    /// the depths of the range's ends.
    fn fit_sides(
        &self,
        alloc: Global,
        content: &Fragment,
        open_start: usize,
        left: usize,
        right: usize,
    ) -> Result<Option<Fitted>, AllocError>
        requires valid { Valid (documents_of self.now.schema.now.spec) self.now.doc.now }
        requires room { right + open_start < 2 ^ 64 }
        ensures step { IfOk result (λ o. IsFirst self.now.schema.now self.now.doc.now self.now.from self.now.to
            (flat_map (with_side left right content.now) (falling open_start)) (option_map step_in o)) }
        ensures makes { IfOk result (λ o. IfSome o (Makes (documents_of self.now.schema.now.spec) self.now.doc.now)) }
    {
        if let Some(fitted) = self.try_side(alloc, content, open_start, left, right)? {
            return Ok(Some(fitted));
        }
        if open_start == 0 {
            return Ok(None);
        }
        self.fit_sides(alloc, content, open_start - 1, left, right)
    }

    /// The step with the content with this open start, and with the open end that goes with it.
    fn try_side(
        &self,
        alloc: Global,
        content: &Fragment,
        open_start: usize,
        left: usize,
        right: usize,
    ) -> Result<Option<Fitted>, AllocError>
        requires valid { Valid (documents_of self.now.schema.now.spec) self.now.doc.now }
        requires room { right + open_start < 2 ^ 64 }
        ensures step { IfOk result (λ o. IsFirst self.now.schema.now self.now.doc.now self.now.from self.now.to
            (with_side left right content.now open_start) (option_map step_in o)) }
        ensures makes { IfOk result (λ o. IfSome o (Makes (documents_of self.now.schema.now.spec) self.now.doc.now)) }
    {
        let end = right + open_start;
        if end < left {
            return Ok(None);
        }
        self.try_sides(alloc, content, open_start, end - left)
    }

    /// The first step that fits of the slices with this content and its open start, peeled no times, once, twice and so on, each with
    /// falling open sides.
    pub fn fit_peeled(
        &self,
        alloc: Global,
        content: &Fragment,
        open_start: usize,
        left: usize,
        right: usize,
    ) -> Result<Option<Fitted>, AllocError>
        requires valid { Valid (documents_of self.now.schema.now.spec) self.now.doc.now }
        requires room { right + left < 2 ^ 64 }
        ensures step { (most open_end : ℕ) → length content.now ≤ most
            → IfOk result (λ o. IsFirst self.now.schema.now self.now.doc.now self.now.from self.now.to
            (flat_map (with_sides left right) (peelings most (sides content.now open_start open_end))) (option_map step_in o)) }
        ensures makes { IfOk result (λ o. IfSome o (Makes (documents_of self.now.schema.now.spec) self.now.doc.now)) }
    {
        let most = open_start.min(left);
        if let Some(fitted) = self.fit_sides(alloc, content, most, left, right)? {
            return Ok(Some(fitted));
        }
        match peel(content) {
            Some(inner) => self.fit_peeled(alloc, inner, open_start.saturating_sub(1), left, right),
            None => Ok(None),
        }
    }
}
