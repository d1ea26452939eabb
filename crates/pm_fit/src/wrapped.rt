//! Content in a wrapping.
ghost use Rattle.std.specs.Prelude.{◌≡◌, ◌≤◌, ℕ, Some, [], length, IfOk, IfSome, option_map, flat_map};
ghost use Rattle.pm_tokens.specs.Scan.{depth_at};
ghost use Rattle.pm_tokens.specs.Faults.{Valid};
ghost use Rattle.pm_schema.specs.Documents.{documents_of};
ghost use Rattle.pm_slice.specs.Sides.{sides};
ghost use Rattle.pm_fit.specs.Fitteds.{step_in, Makes};
ghost use Rattle.pm_fit.specs.Candidates.{peelings, in_wrapping};
ghost use Rattle.pm_fit.specs.Wrappings.{parent_at, before_in};
ghost use Rattle.pm_fit.specs.Fits.{step_with, wrapped};
ghost use Rattle.pm_fit.specs.Firsts.{IsFirst};

use crate::fitted::Fitted;
use crate::nodes::in_nodes;
use crate::peeling::peel;
use crate::target::Target;
use crate::types::{first_type, types_before};
use crate::wrapping::wrapping;
use pm_auto::TypeId;
use pm_node::{Fragment, MAX_DEPTH};
use pm_resolve::Place;
use std::alloc::{AllocError, Global};

impl Target<'_> {
    /// The first step that fits of this content and the contents that are peeled out of it, each in the wrapping at the range's
    /// start. None where the range's ends, which are at these places, are not equally deep.
    pub fn fit_between(
        &self,
        alloc: Global,
        left: &Place<'_>,
        right: &Place<'_>,
        content: &Fragment,
    ) -> Result<Option<Fitted>, AllocError>
        requires valid { Valid (documents_of self.now.schema.now.spec) self.now.doc.now }
        requires start_in { left.now.doc ≡ self.now.doc.now }
        requires start { left.now.pos ≡ self.now.from }
        requires end_in { right.now.doc ≡ self.now.doc.now }
        requires end { right.now.pos ≡ self.now.to }
        ensures step { (most open_start open_end : ℕ) → length content.now ≤ most
            → IfOk result (λ o. IsFirst self.now.schema.now self.now.doc.now self.now.from self.now.to
            (flat_map (in_wrapping (depth_at self.now.doc.now.tokens self.now.from) (depth_at self.now.doc.now.tokens self.now.to)) (peelings most (sides content.now open_start open_end))) (option_map step_in o)) }
        ensures makes { IfOk result (λ o. IfSome o (Makes (documents_of self.now.schema.now.spec) self.now.doc.now)) }
    {
        let depth = left.depth();
        if depth != right.depth() {
            return Ok(None);
        }
        let parent = left.node(depth);
        let start = left.start(depth);
        let pos = (self.from as usize).saturating_sub(start);
        let before = types_before(alloc, self.schema, parent, pos)?;
        self.fit_wrapped(alloc, parent.kind, before.as_slice(), content)
    }

    /// The first step that fits of this content and the contents that are peeled out of it, each in the wrapping at the range's
    /// start: in a node of the type `parent`, after children of the types `before`.
    fn fit_wrapped(
        &self,
        alloc: Global,
        parent: TypeId,
        before: &[TypeId],
        content: &Fragment,
    ) -> Result<Option<Fitted>, AllocError>
        requires valid { Valid (documents_of self.now.schema.now.spec) self.now.doc.now }
        requires within { parent ≡ (parent_at self.now.doc.now self.now.from).kind }
        requires behind { before.now ≡ before_in (documents_of self.now.schema.now.spec).text self.now.doc.now self.now.from }
        ensures step { (most open_start open_end depth : ℕ) → length content.now ≤ most
            → IfOk result (λ o. IsFirst self.now.schema.now self.now.doc.now self.now.from self.now.to
            (flat_map (in_wrapping depth depth) (peelings most (sides content.now open_start open_end))) (option_map step_in o)) }
        ensures makes { IfOk result (λ o. IfSome o (Makes (documents_of self.now.schema.now.spec) self.now.doc.now)) }
    {
        if let Some(fitted) = self.try_wrapping(alloc, parent, before, content)? {
            return Ok(Some(fitted));
        }
        match peel(content) {
            Some(inner) => self.fit_wrapped(alloc, parent, before, inner),
            None => Ok(None),
        }
    }

    /// The step with the content in the wrapping at the range's start.
    fn try_wrapping(
        &self,
        alloc: Global,
        parent: TypeId,
        before: &[TypeId],
        content: &Fragment,
    ) -> Result<Option<Fitted>, AllocError>
        requires valid { Valid (documents_of self.now.schema.now.spec) self.now.doc.now }
        requires within { parent ≡ (parent_at self.now.doc.now self.now.from).kind }
        requires behind { before.now ≡ before_in (documents_of self.now.schema.now.spec).text self.now.doc.now self.now.from }
        ensures step { (open_start open_end depth : ℕ)
            → IfOk result (λ o. IsFirst self.now.schema.now self.now.doc.now self.now.from self.now.to
            (in_wrapping depth depth (sides content.now open_start open_end)) (option_map step_in o)) }
        ensures makes { IfOk result (λ o. IfSome o (Makes (documents_of self.now.schema.now.spec) self.now.doc.now)) }
    {
        let _ = content.size();
        let Some(to) = first_type(self.schema, content) else {
            return Ok(None);
        };
        match wrapping(alloc, self.schema, parent, before, to)? {
            Some(kinds) => self.try_nodes(alloc, kinds.as_slice(), content),
            None => Ok(None),
        }
    }

    /// The step with the content in nodes of these types, of which there is at least one. None where there is none, where they
    /// are more than may stand around a position, or where the content would alone be larger than a document. So no more
    /// nodes are nested than a document may have.
    fn try_nodes(
        &self,
        alloc: Global,
        kinds: &[TypeId],
        content: &Fragment,
    ) -> Result<Option<Fitted>, AllocError>
        requires { Valid (documents_of self.now.schema.now.spec) self.now.doc.now }
        ensures step { IfOk result (λ o. option_map step_in o
            ≡ step_with (documents_of self.now.schema.now.spec) self.now.doc.now self.now.from self.now.to (wrapped self.now.schema.now.spec (Some kinds.now) content.now)) }
        ensures makes { IfOk result (λ o. IfSome o (Makes (documents_of self.now.schema.now.spec) self.now.doc.now)) }
    {
        let size = content.size();
        let count = kinds.len();
        if count == 0 {
            return Ok(None);
        }
        if count > MAX_DEPTH {
            return Ok(None);
        }
        if size + 2 * count > self.schema.max_size() {
            return Ok(None);
        }
        let content = content.copy(alloc)?;
        let content = in_nodes(alloc, self.schema, kinds, content)?;
        self.try_sides(alloc, &content, 0, 0)
    }
}
