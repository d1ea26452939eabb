//! Laws of what a document's definitions compute. Each call does nothing; its contract is the law.
ghost use Rattle.std.specs.Prelude.{◌≡◌, ◌≤◌, ◌↔◌, ℕ, List, length, Some, None};
ghost use Rattle.pm_tokens.specs.Kids.{Forest, kids};
ghost use Rattle.pm_tokens.specs.Faults.{Fault, Valid, fault, fault_place};
ghost use Rattle.pm_tokens.specs.FirstFaults.{IsFault, IsLeastPlace};
ghost use Rattle.pm_tokens.specs.Scan.{deepest};
ghost use Rattle.pm_tokens.specs.Schemas.{max_size, max_depth};
ghost use Rattle.pm_schema.specs.Documents.{documents_of};

use crate::document::Document;
use crate::node::Fragment;
use pm_auto::TypeId;
use pm_schema::Schema;

/// The types that are computed of a content's children are those of its nodes, one after another, where each longest run of
/// units with equal marks is a node of the type `text`. It is a list of nodes in no other way.
pub fn children_are_nodes(content: &Fragment, text: TypeId)
    ensures nodes { Forest text content.now (kids text 0 None content.now) }
    ensures one { (kinds : List ℕ) → Forest text content.now kinds → kinds ≡ kids text 0 None content.now }
{
    let _ = content.size();
    let _ = text;
}

/// The fault of a document is its first: there is such a fault, and none stands before it. A document without a fault is valid,
/// and only such a one; so is, of those that are small and flat enough, one without a faulty place.
pub fn fault_is_first(schema: &Schema, doc: &Document)
    ensures first { (f : Fault) → fault (documents_of schema.now.spec) doc.now ≡ Some f → IsFault (documents_of schema.now.spec) doc.now f }
    ensures place { (p : ℕ) → fault_place (documents_of schema.now.spec) doc.now ≡ Some p → IsLeastPlace (documents_of schema.now.spec) doc.now p }
    ensures none { (fault (documents_of schema.now.spec) doc.now ≡ None) ↔ Valid (documents_of schema.now.spec) doc.now }
    ensures no_place { length doc.now.tokens ≤ max_size (documents_of schema.now.spec) → deepest 0 doc.now.tokens ≤ max_depth
        → ((fault_place (documents_of schema.now.spec) doc.now ≡ None) ↔ Valid (documents_of schema.now.spec) doc.now) }
{
    let _ = schema;
    let _ = doc.content().size();
}
