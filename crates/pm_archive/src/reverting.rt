//! Entries of the log that are taken back.
ghost use Rattle.std.specs.Prelude.{◌≡◌, ◌+◌, ◌≤◌, Some, IfOk, OnOk, OnErr, string_bytes};
ghost use Rattle.pm_talk.specs.Ids.{has_room};
ghost use Rattle.pm_archive.specs.declared.reverting.TheConstants.{MAX_VERSION};
ghost use Rattle.pm_archive.specs.Archives.{IsArchive, version_of};
ghost use Rattle.pm_archive.specs.Texts.{reverted_text};
ghost use Rattle.pm_archive.specs.Answers.{submitted, doc_at, reverted_on, reverted};

use crate::archive::Archive;
use crate::presenting::MAX_IDS;
use crate::texts::{from_text, version_text};
use crate::writing::reverted_text;
use pm_apply::DocChange;
use pm_authority::Refusal;
use pm_change::Failed;
use pm_head::Code;
use pm_node::Document;
use pm_revert::{Reverted, revert};
use pm_talk::{fault_text, refused_text};
use std::alloc::{AllocError, Global};

/// The greatest version at which a client can submit.
pub(crate) const MAX_VERSION: u64 = 4_294_967_295;

impl Archive {
    /// Takes entries of the log back, so many from the version on, whatever came since. The steps that do so are the client's.
    pub(crate) fn revert(
        &mut self,
        alloc: Global,
        id: &str,
        from: u32,
        count: u32,
    ) -> Result<String, AllocError>
        requires { IsArchive self.old }
        ensures text { IfOk result (λ s. string_bytes s ≡ (reverted self.old id.now from count).0) }
        ensures after { OnOk result (self.new ≡ (reverted self.old id.now from count).1) }
        ensures err { OnErr result (self.new ≡ self.old) }
        ensures kept { IsArchive self.new }
    {
        if from < self.from {
            return from_text(alloc, self.from);
        }
        let version = self.version();
        if u64::from(from) + u64::from(count) > version {
            return version_text(alloc, version);
        }
        if !self.has_room(id) {
            return fault_text(alloc, Code::BadClients);
        }
        if version > MAX_VERSION {
            return version_text(alloc, version);
        }
        let before = self.old_doc(alloc, from)?;
        self.take_back(alloc, id, from, count, &before)
    }

    /// Whether the ID is there, or there is room for one more.
    fn has_room(&self, id: &str) -> bool
        ensures { result ≡ has_room self.now.ids id.now }
    {
        self.ids.place(id).is_some() || self.ids.len() < MAX_IDS
    }

    /// Takes entries back that are all kept. The document was `before` at the version.
    fn take_back(
        &mut self,
        alloc: Global,
        id: &str,
        from: u32,
        count: u32,
        before: &Document,
    ) -> Result<String, AllocError>
        requires good { IsArchive self.old }
        requires from { self.old.from ≤ from }
        requires within { from + count ≤ MAX_VERSION }
        requires small { version_of self.old ≤ MAX_VERSION }
        requires before { doc_at self.old from ≡ Some before.now }
        ensures text { IfOk result (λ s. string_bytes s ≡ (reverted_on self.old id.now from count (Some before.now)).0) }
        ensures after { OnOk result (self.new ≡ (reverted_on self.old id.now from count (Some before.now)).1) }
        ensures err { OnErr result (self.new ≡ self.old) }
        ensures kept { IsArchive self.new }
    {
        let entries = self.entries_from(from, Some(count));
        let later = self.entries_from(from + count, None);
        match revert(alloc, self.schema.get(), before, entries, later, &self.doc) {
            Ok(made) => {
                let Reverted {
                    doc: _,
                    steps,
                    apart,
                } = made;
                self.submit_told(alloc, id, apart, steps.as_slice())
            }
            Err(Failed::Reason(Refusal { index, reason })) => refused_text(alloc, index, &reason),
            Err(Failed::NoMemory) => Err(AllocError),
        }
    }

    /// Submits steps that take entries back, at the document's version, and tells them. The answer's text is made before anything
    /// changes.
    fn submit_told(
        &mut self,
        alloc: Global,
        id: &str,
        apart: bool,
        steps: &[DocChange],
    ) -> Result<String, AllocError>
        requires good { IsArchive self.old }
        requires small { version_of self.old ≤ MAX_VERSION }
        ensures text { IfOk result (λ s. string_bytes s ≡ reverted_text self.old.schema.spec (version_of self.old) apart steps.now) }
        ensures after { OnOk result (self.new ≡ (submitted self.old (version_of self.old) id.now steps.now).1) }
        ensures err { OnErr result (self.new ≡ self.old) }
        ensures kept { IsArchive self.new }
    {
        let version = self.version();
        let text = reverted_text(alloc, self.schema.get(), version, apart, steps)?;
        self.submit(alloc, version as u32, id, steps)?;
        Ok(text)
    }
}
