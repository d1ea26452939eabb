//! What a line to a document is answered.
ghost use Rattle.std.specs.Prelude.{◌≡◌, ◌-◌, ◌≤◌, Some, IfOk, OnOk, OnErr, string_bytes, take, drop};
ghost use Rattle.serde_json.specs.View.{view};
ghost use Rattle.pm_archive.specs.Archives.{IsArchive, version_of};
ghost use Rattle.pm_archive.specs.Answers.{answered, since_text, entries_from, version_behind, doc_at, asked_doc_text};

use crate::archive::Archive;
use crate::texts::{from_text, version_text};
use crate::writing::{doc_text, entries_text};
use pm_apply::DocChange;
use pm_authority::{Named, apply_all};
use pm_change::Failed;
use pm_head::LineError;
use pm_node::Document;
use pm_order::{DocWord, Wish, wish_in};
use pm_talk::fault_text;
use serde_json::Value;
use std::alloc::{AllocError, Global};

impl Archive {
    /// The answer to a line of this word. Out of memory changes nothing.
    pub fn answer(
        &mut self,
        alloc: Global,
        word: DocWord,
        json: &Value,
    ) -> Result<String, AllocError>
        requires { IsArchive self.old }
        ensures text { IfOk result (λ s. string_bytes s ≡ (answered self.old word (view json.now)).0) }
        ensures after { OnOk result (self.new ≡ (answered self.old word (view json.now)).1) }
        ensures err { OnErr result (self.new ≡ self.old) }
        ensures kept { IsArchive self.new }
    {
        match wish_in(alloc, self.schema.get(), word, json) {
            Ok(Wish::Submit { version, id, steps }) => {
                self.submit(alloc, version, id.as_str(), steps.as_slice())
            }
            Ok(Wish::Since { version, most }) => self.since(alloc, version, most),
            Ok(Wish::Doc { version }) => self.tell_doc(alloc, version),
            Ok(Wish::Forget { version }) => self.forget(alloc, version),
            Ok(Wish::Map { from, to, anchors }) => {
                self.map_positions(alloc, from, to, anchors.as_slice())
            }
            Ok(Wish::Revert { id, from, count }) => self.revert(alloc, id.as_str(), from, count),
            Ok(Wish::Edit { id, op }) => self.edit(alloc, id.as_str(), &op),
            Ok(Wish::Authors { from }) => self.tell_authors(alloc, from),
            Err(LineError::Code(code)) => fault_text(alloc, code),
            Err(LineError::NoMemory) => Err(AllocError),
        }
    }

    /// The log from the version on, at most so many entries.
    fn since(&self, alloc: Global, version: u32, most: Option<u32>) -> Result<String, AllocError>
        ensures { IfOk result (λ s. string_bytes s ≡ since_text self.now version most) }
    {
        if version < self.from {
            return from_text(alloc, self.from);
        }
        entries_text(
            alloc,
            self.schema.get(),
            &self.ids,
            self.entries_from(version, most),
            self.version_behind(version, most),
        )
    }

    /// The entries from the version on, at most so many.
    pub(crate) fn entries_from(&self, version: u32, most: Option<u32>) -> &[Named<DocChange>]
        requires { self.now.from ≤ version }
        ensures { result.now ≡ entries_from self.now version most }
    {
        let entries = behind(self.log.as_slice(), (version - self.from) as usize);
        match most {
            Some(most) => front(entries, most as usize),
            None => entries,
        }
    }

    /// The version behind these entries.
    fn version_behind(&self, version: u32, most: Option<u32>) -> u64
        ensures { result ≡ version_behind self.now version most }
    {
        match most {
            Some(most) => self.version().min(u64::from(version) + u64::from(most)),
            None => self.version(),
        }
    }

    /// The document, as it is or as it was at a version.
    fn tell_doc(&self, alloc: Global, version: Option<u32>) -> Result<String, AllocError>
        requires { IsArchive self.now }
        ensures { IfOk result (λ s. string_bytes s ≡ asked_doc_text self.now version) }
    {
        match version {
            Some(version) => self.tell_old_doc(alloc, version),
            None => doc_text(alloc, self.schema.get(), &self.doc, self.version()),
        }
    }

    /// The document as it was at a version.
    fn tell_old_doc(&self, alloc: Global, version: u32) -> Result<String, AllocError>
        requires { IsArchive self.now }
        ensures { IfOk result (λ s. string_bytes s ≡ asked_doc_text self.now (Some version)) }
    {
        if version < self.from {
            return from_text(alloc, self.from);
        }
        if u64::from(version) > self.version() {
            return version_text(alloc, self.version());
        }
        let doc = self.old_doc(alloc, version)?;
        doc_text(alloc, self.schema.get(), &doc, u64::from(version))
    }

    /// The document as it was at a version that is kept.
    pub(crate) fn old_doc(&self, alloc: Global, version: u32) -> Result<Document, AllocError>
        requires good { IsArchive self.now }
        requires from { self.now.from ≤ version }
        requires behind { version ≤ version_of self.now }
        ensures { IfOk result (λ d. doc_at self.now version ≡ Some d) }
    {
        if u64::from(version) == self.version() {
            return self.doc.copy();
        }
        let steps = front(self.log.as_slice(), (version - self.from) as usize);
        match apply_all(alloc, self.schema.get(), &self.first, steps) {
            Ok(doc) => Ok(doc),
            // The steps of a log apply.
            Err(Failed::Reason(_)) => unreachable!(),
            Err(Failed::NoMemory) => Err(AllocError),
        }
    }
}

/// The entries from the place on; nothing beyond the end.
fn behind(entries: &[Named<DocChange>], place: usize) -> &[Named<DocChange>]
    ensures { result.now ≡ drop place entries.now }
{
    if place < entries.len() {
        &entries[place..]
    } else {
        &[]
    }
}

/// The first entries, at most so many.
fn front(entries: &[Named<DocChange>], most: usize) -> &[Named<DocChange>]
    ensures { result.now ≡ take most entries.now }
{
    if most < entries.len() {
        &entries[..most]
    } else {
        entries
    }
}
