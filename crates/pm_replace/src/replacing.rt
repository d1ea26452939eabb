//! Replacing a range by a slice.
ghost use Rattle.std.specs.Prelude.{◌≡◌, ◌≤◌, true, false, length, Err, IfOk, IfErr};
ghost use Rattle.pm_tokens.specs.Tokens.{Doc};
ghost use Rattle.pm_tokens.specs.Slices.{spliced, depths_fit};
ghost use Rattle.pm_tokens.specs.Faults.{Valid};
ghost use Rattle.pm_change.specs.Failing.{Answers};
ghost use Rattle.pm_meaning.specs.Steps.{Replace};
ghost use Rattle.pm_meaning.specs.Outcomes.{made, outcome};
ghost use Rattle.pm_node.specs.Documents.{doc_with};
ghost use Rattle.pm_schema.specs.Documents.{documents_of};
ghost use Rattle.pm_replace.specs.Splices.{spliced_outcome, Made};

use crate::checking::checked_change;
use crate::known::knows_slice;
use crate::refusing::failed;
use crate::splicing::{join, splice};
use pm_build::{depth_at, parts_pair};
use pm_change::Failed;
use pm_meaning::Reason;
use pm_node::{Difference, Document, Fragment, Node};
use pm_schema::Schema;
use pm_slice::Slice;
use std::alloc::Global;

/// The document with the range from..to replaced by the slice. Positions are in tokens. A joined node keeps the left type,
/// attributes and marks. ProseMirror: `Node.replace`.
///
/// # Errors
///
/// The first reason why not, in this order.
/// - `Range`: not from <= to <= size.
/// - `Depth`: the open sides don't fit the depths of from and to.
/// - `Pair`: from or to parts a surrogate pair.
/// - `Join`: an open node meets a close whose owner's type isn't compatible with its own.
/// - `Large`, `Deep`, `Content`: the result has too many tokens, nests too deep, or has a fault, of which the least place is named.
/// - `NotInSchema`: a node that is open at the slice's start has a type, attributes or marks that are none of the schema.
pub fn replace(
    alloc: Global,
    schema: &Schema,
    doc: &Document,
    from: u64,
    to: u64,
    slice: &Slice,
) -> Result<Document, Failed<Reason>>
    requires { Valid (documents_of schema.now.spec) doc.now }
    ensures { Answers (outcome (documents_of schema.now.spec) (Replace from to slice.now false) doc.now) result }
{
    let top = doc.top();
    let content = doc.content();
    let next = replace_in(
        alloc,
        schema,
        top,
        content,
        from as usize,
        to as usize,
        slice,
    )?;
    let known = knows_slice(alloc, schema, slice)?;
    if !known {
        return Err(Failed::Reason(Reason::NotInSchema));
    }
    Ok(next)
}

/// The document with the top node's type, attributes and marks and this content, with the range from..to replaced, or the first
/// reason of those that look at the document.
fn replace_in(
    alloc: Global,
    schema: &Schema,
    top: &Node,
    content: &Fragment,
    from: usize,
    to: usize,
    slice: &Slice,
) -> Result<Document, Failed<Reason>>
    requires { Valid (documents_of schema.now.spec) (doc_with top.now content.now) }
    ensures { Answers (made (documents_of schema.now.spec) (Replace from to slice.now false) (doc_with top.now content.now)) result }
{
    let size = content.size();
    let _ = slice.size();
    if to < from {
        return Err(Failed::Reason(Reason::Range));
    }
    if size < to {
        return Err(Failed::Reason(Reason::Range));
    }
    let left = depth_at(content, from);
    let right = depth_at(content, to);
    let start = slice.open_start();
    let end = slice.open_end();
    if left < start {
        return Err(Failed::Reason(Reason::Depth));
    }
    if left + end != right + start {
        return Err(Failed::Reason(Reason::Depth));
    }
    if parts_pair(content, from) {
        return Err(Failed::Reason(Reason::Pair));
    }
    if parts_pair(content, to) {
        return Err(Failed::Reason(Reason::Pair));
    }
    splice_valid(alloc, schema, top, content, from, to, slice)
}

/// A valid document, told by its top node and its content, with the range from..to replaced by the slice, or the first reason
/// why not, in the order Join, Large, Deep, Content. A result that is too large is not built, since only its joins are asked
/// for; any other is checked by the node around the range where that is enough.
pub fn splice_valid(
    alloc: Global,
    schema: &Schema,
    top: &Node,
    content: &Fragment,
    from: usize,
    to: usize,
    slice: &Slice,
) -> Result<Document, Failed<Reason>>
    requires valid { Valid (documents_of schema.now.spec) (doc_with top.now content.now) }
    requires order { from ≤ to }
    requires within { to ≤ length content.now }
    requires fits { depths_fit content.now from to slice.now ≡ true }
    ensures { Answers (spliced_outcome (documents_of schema.now.spec) (doc_with top.now content.now) (spliced content.now from to slice.now)) result }
{
    let _ = content.size();
    let made = splice_within(alloc, schema, content, from, to, slice)?;
    let change = Difference {
        from,
        to,
        new_to: from + slice.size(),
    };
    checked_change(alloc, schema, top, content, made, change)
}

/// The content with the range from..to replaced by the slice, or the first reason why not, in the order Join, Large.
fn splice_within(
    alloc: Global,
    schema: &Schema,
    content: &Fragment,
    from: usize,
    to: usize,
    slice: &Slice,
) -> Result<Fragment, Failed<Reason>>
    requires order { from ≤ to }
    requires within { to ≤ length content.now }
    requires fits { depths_fit content.now from to slice.now ≡ true }
    ensures made { IfOk result (λ ts. Made (documents_of schema.now.spec) (spliced content.now from to slice.now) ts) }
    ensures refused { IfErr result (λ e. (d : Doc) → Answers (spliced_outcome (documents_of schema.now.spec) d (spliced content.now from to slice.now)) (Err e)) }
{
    let size = content.size();
    let added = slice.size();
    let total = from + added + (size - to);
    if total > schema.max_size() {
        return match join(alloc, schema, content, from, to, slice) {
            Ok(()) => Err(Failed::Reason(Reason::Large)),
            Err(refused) => Err(failed(refused)),
        };
    }
    match splice(alloc, schema, content, from, to, slice) {
        Ok(made) => Ok(made),
        Err(refused) => Err(failed(refused)),
    }
}
