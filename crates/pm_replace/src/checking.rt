//! The check of a document that a step made.
ghost use Rattle.std.specs.Prelude.{◌≤◌, length};
ghost use Rattle.pm_change.specs.Failing.{Answers};
ghost use Rattle.pm_meaning.specs.Outcomes.{checked};
ghost use Rattle.pm_node.specs.Documents.{doc_with};
ghost use Rattle.pm_node.specs.Changes.{Changed};
ghost use Rattle.pm_schema.specs.Documents.{documents_of};
ghost use Rattle.pm_tokens.specs.Faults.{Valid};
ghost use Rattle.pm_tokens.specs.Schemas.{max_size};

use pm_change::Failed;
use pm_meaning::Reason;
use pm_node::{Difference, Document, Fragment, MAX_DEPTH, Node, stays_valid_around};
use pm_schema::Schema;
use std::alloc::Global;

/// The document, unless it has more tokens than the schema allows (Large), a position is in more than 48 nodes (Deep), or a node or
/// unit has a fault of attributes, marks or children or is a broken unit (Content, with the least such place).
pub fn checked(alloc: Global, schema: &Schema, doc: Document) -> Result<Document, Failed<Reason>>
    ensures { Answers (checked (documents_of schema.now.spec) doc) result }
{
    let size = doc.size();
    if size > schema.max_size() {
        return Err(Failed::Reason(Reason::Large));
    }
    let nests = doc.nests_within(MAX_DEPTH);
    if !nests {
        return Err(Failed::Reason(Reason::Deep));
    }
    let place = doc.fault_place(alloc, schema)?;
    match place {
        Some(at) => Err(Failed::Reason(Reason::Content { at })),
        None => Ok(doc),
    }
}

/// The document with the type, attributes and marks of a node and this content, under the same reasons.
pub fn checked_content(
    alloc: Global,
    schema: &Schema,
    top: &Node,
    content: Fragment,
) -> Result<Document, Failed<Reason>>
    ensures { Answers (checked (documents_of schema.now.spec) (doc_with top.now content)) result }
{
    let next = Document::with_content(alloc, top, content)?;
    checked(alloc, schema, next)
}

/// The same, where a valid document had the content `before` and the change from it is known. The node around the change is
/// checked alone: only where that does not tell that there is no fault the whole document is.
pub fn checked_change(
    alloc: Global,
    schema: &Schema,
    top: &Node,
    before: &Fragment,
    content: Fragment,
    change: Difference,
) -> Result<Document, Failed<Reason>>
    requires valid { Valid (documents_of schema.now.spec) (doc_with top.now before.now) }
    requires changed { Changed before.now content change.from change.to change.new_to }
    requires order { change.from ≤ change.to }
    requires new_order { change.from ≤ change.new_to }
    requires size { length content ≤ max_size (documents_of schema.now.spec) }
    ensures { Answers (checked (documents_of schema.now.spec) (doc_with top.now content)) result }
{
    let stays = stays_valid_around(alloc, schema, top.kind, before, &content, change, MAX_DEPTH);
    if !stays {
        return checked_content(alloc, schema, top, content);
    }
    let next = Document::with_content(alloc, top, content)?;
    Ok(next)
}
