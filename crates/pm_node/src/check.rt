//! The check of a document.
ghost use Rattle.std.specs.Prelude.{◌≡◌, ◌≢◌, ◌+◌, ◌<◌, ◌≤◌, ◌^◌, ◌&&◌, ◌∷◌, List, ℕ, true, length, IsTrue, OnOk, IfErr};
ghost use Rattle.pm_tokens.specs.Marks.{have_attrs, is_set, are_allowed};
ghost use Rattle.pm_tokens.specs.Faults.{Valid, fault, first_fault, fault_unless};
ghost use Rattle.pm_schema.specs.Documents.{documents_of};
ghost use Rattle.pm_node.specs.Trees.{node_tokens};
ghost use Rattle.pm_node.specs.Documents.{doc_with};
ghost use Rattle.pm_node.specs.Checks.{Checks};

use crate::depth::nests_within;
use crate::document::Document;
use crate::fault::CheckError;
use crate::node::{Body, Fragment, Node};
use crate::pairs::first_broken;
use crate::rules::{
    accepts, content_fits, leaf_fits, marks_are_allowed, marks_are_set, marks_have_attrs,
    node_attrs_fit,
};
use pm_attrs::Attrs;
use pm_auto::TypeId;
use pm_marks::MarkSet;
use pm_schema::Schema;
use std::alloc::Global;

/// The greatest number of nodes that a position of a document is in.
pub const MAX_DEPTH: usize = 48;

impl Document {
    /// The first fault of the document: its size, which the schema limits, its depth, a broken unit, and then the least place with
    /// a fault of attributes, marks or children, at one place in this order.
    /// ProseMirror: `Node.check`.
    pub fn check(&self, alloc: Global, schema: &Schema) -> Result<(), CheckError>
        ensures first { Checks result (fault (documents_of schema.now.spec) self.now) }
        ensures valid { OnOk result (Valid (documents_of schema.now.spec) self.now) }
        ensures invalid { IfErr result (λ e. e ≢ CheckError.NoMemory → ¬ Valid (documents_of schema.now.spec) self.now) }
    {
        let content = self.content();
        let _ = content.size();
        content_fault(alloc, schema, self.top(), content)
    }
}

/// The first fault of the document with the top node's type, attributes and marks and this content.
fn content_fault(
    alloc: Global,
    schema: &Schema,
    top: &Node,
    content: &Fragment,
) -> Result<(), CheckError>
    ensures { Checks result (fault (documents_of schema.now.spec) (doc_with top.now content.now)) }
{
    if content.size() > schema.max_size() {
        return Err(CheckError::Large);
    }
    if !nests_within(content, MAX_DEPTH) {
        return Err(CheckError::Deep);
    }
    if let Some(at) = first_broken(content, 1) {
        return Err(CheckError::Pair { at });
    }
    if !node_attrs_fit(schema, top.kind, &top.attrs) {
        return Err(CheckError::Attrs { at: 0 });
    }
    if !top.marks.marks().is_empty() {
        return Err(CheckError::Marks { at: 0 });
    }
    if !accepts(schema, top.kind, content) {
        return Err(CheckError::Content { at: 0 });
    }
    nodes_fault(alloc, schema, top.kind, content, 1)
}

/// The first fault of attributes, marks or children among children of a node of the type `parent`, where `at` is the place
/// of the first token.
#[cycle(check)]
pub(crate) fn nodes_fault(
    alloc: Global,
    schema: &Schema,
    parent: TypeId,
    content: &Fragment,
    at: usize,
) -> Result<(), CheckError>
    requires known { parent < length schema.now.spec.nodes }
    requires room { at + length content.now < 2 ^ 33 }
    ensures { (ps : List ℕ) → Checks result (first_fault (documents_of schema.now.spec) at (parent ∷ ps) content.now) }
{
    let mut at = at;
    let children = content.children();
    for i in 0..children.len() {
        let child = children.get(i);
        let size = child.size();
        node_fault(alloc, schema, parent, child, at)?;
        at += size;
    }
    Ok(())
}

#[cycle(check)]
fn node_fault(
    alloc: Global,
    schema: &Schema,
    parent: TypeId,
    node: &Node,
    at: usize,
) -> Result<(), CheckError>
    requires known { parent < length schema.now.spec.nodes }
    requires room { at + length (node_tokens node.now) < 2 ^ 33 }
    ensures { (ps : List ℕ) → Checks result (first_fault (documents_of schema.now.spec) at (parent ∷ ps) (node_tokens node.now)) }
{
    match &node.body {
        Body::Text(units) => {
            if units.len() == 0 {
                return Ok(());
            }
            marks_fault(alloc, schema, parent, true, &node.marks, at)
        }
        Body::Leaf => {
            let fit = node_attrs_fit(schema, node.kind, &node.attrs);
            marks_fault(alloc, schema, parent, fit, &node.marks, at)?;
            if !leaf_fits(schema, node.kind) {
                return Err(CheckError::Content { at });
            }
            Ok(())
        }
        Body::Children(content) => {
            let _ = content.size();
            let fit = node_attrs_fit(schema, node.kind, &node.attrs);
            marks_fault(alloc, schema, parent, fit, &node.marks, at)?;
            if !content_fits(schema, node.kind, content) {
                return Err(CheckError::Content { at });
            }
            nodes_fault(alloc, schema, node.kind, content, at + 1)
        }
    }
}

/// The fault of attributes or marks at the place `at`, where `fit` says whether the attributes of the node itself fit.
fn marks_fault(
    alloc: Global,
    schema: &Schema,
    parent: TypeId,
    fit: bool,
    marks: &MarkSet<Attrs>,
    at: usize,
) -> Result<(), CheckError>
    requires { parent < length schema.now.spec.nodes }
    ensures first { Checks result (fault_unless (fit && have_attrs (documents_of schema.now.spec) marks.now)
        (is_set (documents_of schema.now.spec) marks.now && are_allowed (documents_of schema.now.spec) parent marks.now) true at) }
    ensures fit { OnOk result (IsTrue fit) }
{
    if !fit || !marks_have_attrs(schema, marks) {
        return Err(CheckError::Attrs { at });
    }
    if !marks_are_set(alloc, schema, marks)? || !marks_are_allowed(schema, parent, marks) {
        return Err(CheckError::Marks { at });
    }
    Ok(())
}
