//! Positions of a document, and what stands around them.
ghost use Rattle.std.specs.Prelude.{◌≡◌, ◌≤◌, ◌∷◌, [], true, length, IfOk, IsTrue};
ghost use Rattle.pm_tokens.specs.Scan.{depth_at, is_whole, part};
ghost use Rattle.pm_meaning.specs.Outcomes.{in_order};

use pm_node::Document;
use pm_resolve::{Place, PlaceError, resolve};
use std::alloc::{AllocError, Global};

/// Whether the positions are in order within the document. It takes no memory.
pub fn in_range(doc: &Document, from: u64, to: u64) -> bool
    ensures value { result ≡ in_order (from ∷ to ∷ []) (length doc.now.tokens) }
    ensures order { IsTrue result → from ≤ to }
    ensures within { IsTrue result → to ≤ length doc.now.tokens }
{
    from <= to && to <= doc.size() as u64
}

/// Whether the position is one of the document. It takes no memory.
pub fn is_position(doc: &Document, pos: u64) -> bool
    ensures value { result ≡ in_order (pos ∷ []) (length doc.now.tokens) }
    ensures within { IsTrue result → pos ≤ length doc.now.tokens }
{
    pos <= doc.size() as u64
}

/// The place of a position of the document.
pub fn place_at<'a>(alloc: Global, doc: &'a Document, pos: u64) -> Result<Place<'a>, AllocError>
    requires { pos ≤ length doc.now.tokens }
    ensures document { IfOk result (λ p. p.doc ≡ doc.now) }
    ensures position { IfOk result (λ p. p.pos ≡ pos) }
{
    match resolve(alloc, doc, pos as usize) {
        Ok(place) => Ok(place),
        Err(PlaceError::OutOfRange) => unreachable!(),
        Err(PlaceError::NoMemory) => Err(AllocError),
    }
}

/// How many nodes are around the position.
pub fn depth_at(alloc: Global, doc: &Document, pos: u64) -> Result<u64, AllocError>
    requires { pos ≤ length doc.now.tokens }
    ensures depth { IfOk result (λ n. n ≡ depth_at doc.now.tokens pos) }
    ensures bound { IfOk result (λ n. n ≤ pos) }
{
    let place = place_at(alloc, doc, pos)?;
    let depth = place.depth() as u64;
    Ok(depth)
}

/// Whether what stands from..to is a whole number of nodes: each node around an end is around both.
pub fn is_balanced(alloc: Global, doc: &Document, from: u64, to: u64) -> Result<bool, AllocError>
    requires whole { is_whole doc.now.tokens ≡ true }
    requires order { from ≤ to }
    requires within { to ≤ length doc.now.tokens }
    ensures { IfOk result (λ b. b ≡ is_whole (part from to doc.now.tokens)) }
{
    let right = depth_at(alloc, doc, to)?;
    let left = place_at(alloc, doc, from)?;
    let shared = left.shared_depth(to as usize);
    let inner = left.depth();
    if inner != shared {
        return Ok(false);
    }
    Ok(right == shared as u64)
}
