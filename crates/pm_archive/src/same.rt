//! Documents compared.
ghost use Rattle.std.specs.Prelude.{◌≡◌, IfOk, string_bytes};
ghost use Rattle.std.specs.Str.{bytes_eq};
ghost use Rattle.std.specs.Cmp.Lexicographic.{pointwise};
ghost use Rattle.pm_archive.specs.Same.{doc_json, same_name, same_entry, same_head, same_content, same_archive};

use crate::archive::Archive;
use pm_apply::DocChange;
use pm_authority::{Name, Named};
use pm_doctext::push_document;
use pm_node::Document;
use pm_schema::Schema;
use pm_stepjson::step_text;
use pm_talk::ClientIds;
use std::alloc::{AllocError, Global};

impl Archive {
    /// Whether the other document, which may be one of another house, is the same: its name, its schema's name, its first kept version,
    /// the JSON of its first document and of the document, its log, entry by entry the client and the JSON of the step, and the IDs. The
    /// error is running out of memory.
    pub fn is_same(&self, alloc: Global, other: &Archive) -> Result<bool, AllocError>
        ensures { IfOk result (λ is. is ≡ same_archive self.now other.now) }
    {
        if !self.has_same_head(other) {
            return Ok(false);
        }
        self.has_same_content(alloc, other)
    }

    /// Whether name, schema's name, first kept version and IDs are the same.
    fn has_same_head(&self, other: &Archive) -> bool
        ensures { result ≡ same_head self.now other.now }
    {
        self.name.as_str() == other.name.as_str()
            && self.kind.as_str() == other.kind.as_str()
            && self.from == other.from
            && same_ids(&self.ids, &other.ids)
    }

    /// Whether first document, document and log are the same.
    fn has_same_content(&self, alloc: Global, other: &Archive) -> Result<bool, AllocError>
        ensures { IfOk result (λ is. is ≡ same_content self.now.schema.spec other.now.schema.spec self.now other.now) }
    {
        let schema = self.schema.get();
        let its = other.schema.get();
        if !same_doc(alloc, schema, &self.first, its, &other.first)? {
            return Ok(false);
        }
        if !same_doc(alloc, schema, &self.doc, its, &other.doc)? {
            return Ok(false);
        }
        same_entries(
            alloc,
            schema,
            self.log.as_slice(),
            its,
            other.log.as_slice(),
        )
    }
}

/// Whether both are the same IDs in the same order.
#[tactic(auto, using(crate::proofs::Ids::same_from))]
fn same_ids(ids: &ClientIds, others: &ClientIds) -> bool
    ensures { result ≡ pointwise bytes_eq ids.now others.now }
{
    if ids.len() != others.len() {
        return false;
    }
    for i in 0..ids.len() {
        if ids.id(i) != others.id(i) {
            return false;
        }
    }
    true
}

/// Whether two documents have the same JSON, each under its schema.
fn same_doc(
    alloc: Global,
    schema: &Schema,
    doc: &Document,
    its: &Schema,
    other: &Document,
) -> Result<bool, AllocError>
    ensures { IfOk result (λ is. is ≡ bytes_eq (doc_json schema.now.spec doc.now) (doc_json its.now.spec other.now)) }
{
    let text = doc_json(alloc, schema, doc)?;
    let other_text = doc_json(alloc, its, other)?;
    Ok(text.as_str() == other_text.as_str())
}

/// The JSON of a document.
fn doc_json(alloc: Global, schema: &Schema, doc: &Document) -> Result<String, AllocError>
    ensures { IfOk result (λ s. string_bytes s ≡ doc_json schema.now.spec doc.now) }
{
    let mut text = String::new(alloc);
    push_document(alloc, schema, &mut text, doc)?;
    Ok(text)
}

/// Whether both are the same entries in the same order.
fn same_entries(
    alloc: Global,
    schema: &Schema,
    entries: &[Named<DocChange>],
    its: &Schema,
    others: &[Named<DocChange>],
) -> Result<bool, AllocError>
    ensures { IfOk result (λ is. is ≡ pointwise (same_entry schema.now.spec its.now.spec) entries.now others.now) }
{
    if entries.len() != others.len() {
        return Ok(false);
    }
    for i in 0..entries.len() {
        if !same_entry(alloc, schema, &entries[i], its, &others[i])? {
            return Ok(false);
        }
    }
    Ok(true)
}

/// Whether two entries are the same client's, and their steps have the same JSON.
fn same_entry(
    alloc: Global,
    schema: &Schema,
    entry: &Named<DocChange>,
    its: &Schema,
    other: &Named<DocChange>,
) -> Result<bool, AllocError>
    ensures { IfOk result (λ is. is ≡ same_entry schema.now.spec its.now.spec entry.now other.now) }
{
    if !same_name(entry.name, other.name) {
        return Ok(false);
    }
    let text = step_text(alloc, schema, entry.change.step())?;
    let other_text = step_text(alloc, its, other.change.step())?;
    Ok(text.as_str() == other_text.as_str())
}

/// Whether both are the same client's, with the same serial.
fn same_name(name: Name, other: Name) -> bool
    ensures { result ≡ same_name name other }
{
    name.client == other.client && name.serial == other.serial
}
