//! Fitting a slice in.
ghost use Rattle.std.specs.Prelude.{◌≡◌, ◌≤◌, length, IfOk, IfSome, option_map};
ghost use Rattle.pm_tokens.specs.Faults.{Valid};
ghost use Rattle.pm_schema.specs.Documents.{documents_of};
ghost use Rattle.pm_fit.specs.Fitteds.{step_in, Makes};
ghost use Rattle.pm_fit.specs.Fits.{fit_step};

use crate::fitted::Fitted;
use crate::target::Target;
use pm_node::Document;
use pm_resolve::{Place, PlaceError, resolve};
use pm_schema::Schema;
use pm_slice::Slice;
use std::alloc::{AllocError, Global};

/// The step that puts a slice in place of the range from..to of a document, and the document that it makes. Positions are in
/// tokens. It is the first of these candidates with which `replace` gives a document, which is that document; None exactly
/// where there is none. Let m and n be the depths of from and to, and h the depth that they share.
///
/// First, for k = 0, 1, 2 and so on, the slice peeled k times. It can be peeled where its content is exactly one node that is
/// no text, no leaf and not empty: that node's content takes its place, and each open side is one less, not below 0. The open
/// start a goes from its own, or m where that is smaller, down to 0, and the open end is n - m + a, where that is not below 0
/// and the content has such open sides.
///
/// Then, for each k again, where m = n, the content in the wrapping from from's parent, after the children that begin before
/// from, towards the content's first type, if that isn't empty: in nodes with default attributes and with open sides 0.
///
/// Then, where the slice is empty, for j from the smaller of m and n down to h, the nodes around from at depths j + 1 to m
/// without content, each in the one before, and those around to at depths j + 1 to n, with the open sides m - j and n - j.
/// ProseMirror: `replaceStep`, which uses a `Fitter`. The rule is not ProseMirror's in every case.
pub fn fit(
    alloc: Global,
    schema: &Schema,
    doc: &Document,
    from: u64,
    to: u64,
    slice: &Slice,
) -> Result<Option<Fitted>, AllocError>
    requires valid { Valid (documents_of schema.now.spec) doc.now }
    requires order { from ≤ to }
    requires within { to ≤ length doc.now.tokens }
    ensures step { IfOk result (λ o. option_map step_in o ≡ fit_step schema.now doc.now from to slice.now) }
    ensures makes { IfOk result (λ o. IfSome o (Makes (documents_of schema.now.spec) doc.now)) }
{
    let target = Target {
        schema,
        doc,
        from,
        to,
    };
    let left = place_at(alloc, doc, from as usize)?;
    let right = place_at(alloc, doc, to as usize)?;
    let content = slice.content();
    let start = slice.open_start();
    let (m, n) = (left.depth(), right.depth());
    if let Some(fitted) = target.fit_peeled(alloc, content, start, m, n)? {
        return Ok(Some(fitted));
    }
    if let Some(fitted) = target.fit_between(alloc, &left, &right, content)? {
        return Ok(Some(fitted));
    }
    if slice.size() > 0 {
        return Ok(None);
    }
    let least = left.shared_depth(to as usize);
    target.fit_closing(alloc, &left, &right, least, m.min(n) - least)
}

/// The place of a position of the document.
fn place_at<'a>(alloc: Global, doc: &'a Document, pos: usize) -> Result<Place<'a>, AllocError>
    requires { pos ≤ length doc.now.tokens }
    ensures document { IfOk result (λ p. p.doc ≡ doc.now) }
    ensures position { IfOk result (λ p. p.pos ≡ pos) }
{
    match resolve(alloc, doc, pos) {
        Ok(place) => Ok(place),
        Err(PlaceError::OutOfRange) => unreachable!(),
        Err(PlaceError::NoMemory) => Err(AllocError),
    }
}
