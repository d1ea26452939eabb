//! The least place of a document with a fault.
ghost use Rattle.std.specs.Prelude.{◌≡◌, ◌≤◌, ◌<◌, ◌^◌, ◌↔◌, IsTrue, IfOk, Option, length};
ghost use Rattle.pm_tokens.specs.Scan.{deepest};
ghost use Rattle.pm_tokens.specs.Faults.{Fault, fault_place};
ghost use Rattle.pm_schema.specs.Documents.{documents_of};
ghost use Rattle.pm_node.specs.Documents.{doc_with};
ghost use Rattle.pm_node.specs.Checks.{Checks};
ghost use Rattle.pm_node.specs.Places.{place_in, least};

use crate::check::nodes_fault;
use crate::depth::nests_within;
use crate::document::Document;
use crate::fault::CheckError;
use crate::node::{Fragment, Node};
use crate::pairs::first_broken;
use crate::rules::{accepts, node_attrs_fit};
use pm_schema::Schema;
use std::alloc::{AllocError, Global};

impl Document {
    /// Whether no position is in more than `levels` nodes. It recurses at most `levels` deep, and takes no memory.
    pub fn nests_within(&self, levels: usize) -> bool
        ensures { IsTrue result ↔ (deepest 0 self.now.tokens ≤ levels) }
    {
        nests_within(self.content(), levels)
    }

    /// The least place with a fault of attributes, marks or children, or with a broken unit. Place 0 is the top node, and
    /// place p + 1 the node or unit whose token is the p-th.
    pub fn fault_place(&self, alloc: Global, schema: &Schema) -> Result<Option<usize>, AllocError>
        ensures { IfOk result (λ p. p ≡ fault_place (documents_of schema.now.spec) self.now) }
    {
        content_place(alloc, schema, self.top(), self.content())
    }
}

/// The least place of the document with the top node's type, attributes and marks and this content.
fn content_place(
    alloc: Global,
    schema: &Schema,
    top: &Node,
    content: &Fragment,
) -> Result<Option<usize>, AllocError>
    ensures { IfOk result (λ p. p ≡ fault_place (documents_of schema.now.spec) (doc_with top.now content.now)) }
{
    let _ = content.size();
    if !node_attrs_fit(schema, top.kind, &top.attrs) {
        return Ok(Some(0));
    }
    if !top.marks.marks().is_empty() {
        return Ok(Some(0));
    }
    if !accepts(schema, top.kind, content) {
        return Ok(Some(0));
    }
    let broken = first_broken(content, 1);
    let fault = place_of(nodes_fault(alloc, schema, top.kind, content, 1))?;
    Ok(least(broken, fault))
}

/// The place of the fault that a check found.
fn place_of(found: Result<(), CheckError>) -> Result<Option<usize>, AllocError>
    ensures { (fault : Option Fault) → Checks found fault → IfOk result (λ p. p ≡ place_in fault) }
{
    match found {
        Ok(()) => Ok(None),
        Err(CheckError::Content { at }) => Ok(Some(at)),
        Err(CheckError::Marks { at }) => Ok(Some(at)),
        Err(CheckError::Attrs { at }) => Ok(Some(at)),
        Err(CheckError::Pair { at }) => Ok(Some(at)),
        Err(CheckError::Deep) => Ok(None),
        Err(CheckError::Large) => Ok(None),
        Err(CheckError::NoMemory) => Err(AllocError),
    }
}

/// The lesser of two places that may be there.
fn least(left: Option<usize>, right: Option<usize>) -> Option<usize>
    ensures { result ≡ least left right }
{
    match (left, right) {
        (None, right) => right,
        (Some(a), None) => Some(a),
        (Some(a), Some(b)) => Some(a.min(b)),
    }
}
