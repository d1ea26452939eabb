//! Edits that a server makes itself.
ghost use Rattle.std.specs.Prelude.{◌≡◌, ◌≤◌, ◌∷◌, [], Ok, IfOk, OnOk, OnErr, string_bytes};
ghost use Rattle.pm_edit.specs.Ops.{steps_of};
ghost use Rattle.pm_archive.specs.declared.reverting.TheConstants.{MAX_VERSION};
ghost use Rattle.pm_archive.specs.Archives.{IsArchive, version_of};
ghost use Rattle.pm_archive.specs.Answers.{submitted, made, edited};

use crate::archive::Archive;
use crate::reverting::MAX_VERSION;
use crate::texts::version_text;
use crate::writing::edited_text;
use pm_apply::DocChange;
use pm_change::MakeError;
use pm_edit::{Edited, edit_for};
use pm_ops::Op;
use pm_told::none_text;
use std::alloc::{AllocError, Global};

impl Archive {
    /// Makes an edit on the document as it is. Its step is the client's, and is told where it is accepted.
    pub(crate) fn edit(&mut self, alloc: Global, id: &str, op: &Op) -> Result<String, AllocError>
        requires { IsArchive self.old }
        ensures text { IfOk result (λ s. string_bytes s ≡ (edited self.old id.now (steps_of self.old.schema self.old.doc op.now)).0) }
        ensures after { OnOk result (self.new ≡ (edited self.old id.now (steps_of self.old.schema self.old.doc op.now)).1) }
        ensures err { OnErr result (self.new ≡ self.old) }
        ensures kept { IsArchive self.new }
    {
        match edit_for(alloc, self.schema.get(), &self.doc, op) {
            Ok(edited) => {
                let Edited { step, doc: _ } = edited;
                let change = DocChange::new(alloc, step)?;
                self.submit_edit(alloc, id, change)
            }
            Err(MakeError::NoStep(reason)) => none_text(alloc, reason),
            Err(MakeError::NoMemory) => Err(AllocError),
        }
    }

    /// Submits the step of an edit, if a client can submit at the document's version.
    fn submit_edit(
        &mut self,
        alloc: Global,
        id: &str,
        step: DocChange,
    ) -> Result<String, AllocError>
        requires { IsArchive self.old }
        ensures text { IfOk result (λ s. string_bytes s ≡ (edited self.old id.now (Ok (step ∷ []))).0) }
        ensures after { OnOk result (self.new ≡ (edited self.old id.now (Ok (step ∷ []))).1) }
        ensures err { OnErr result (self.new ≡ self.old) }
        ensures kept { IsArchive self.new }
    {
        let version = self.version();
        if version > MAX_VERSION {
            return version_text(alloc, version);
        }
        let mut steps = Vec::with_capacity(alloc, 1)?;
        steps.push(step)?;
        self.submit_made(alloc, id, steps.as_slice())
    }

    /// Submits the steps of an edit, at the document's version, and tells them where they are accepted. That text is made before
    /// anything changes.
    fn submit_made(
        &mut self,
        alloc: Global,
        id: &str,
        steps: &[DocChange],
    ) -> Result<String, AllocError>
        requires good { IsArchive self.old }
        requires small { version_of self.old ≤ MAX_VERSION }
        ensures text { IfOk result (λ s. string_bytes s ≡ (made self.old steps.now (submitted self.old (version_of self.old) id.now steps.now)).0) }
        ensures after { OnOk result (self.new ≡ (submitted self.old (version_of self.old) id.now steps.now).1) }
        ensures err { OnErr result (self.new ≡ self.old) }
        ensures kept { IsArchive self.new }
    {
        let version = self.version();
        let made = edited_text(alloc, self.schema.get(), version, steps)?;
        let told = self.submit_here(alloc, id, steps)?;
        if self.version() == version {
            Ok(told)
        } else {
            Ok(made)
        }
    }

    /// Submits steps at the document's version.
    fn submit_here(
        &mut self,
        alloc: Global,
        id: &str,
        steps: &[DocChange],
    ) -> Result<String, AllocError>
        requires good { IsArchive self.old }
        requires small { version_of self.old ≤ MAX_VERSION }
        ensures text { IfOk result (λ s. string_bytes s ≡ (submitted self.old (version_of self.old) id.now steps.now).0) }
        ensures after { OnOk result (self.new ≡ (submitted self.old (version_of self.old) id.now steps.now).1) }
        ensures err { OnErr result (self.new ≡ self.old) }
        ensures kept { IsArchive self.new }
    {
        let version = self.version();
        self.submit(alloc, version as u32, id, steps)
    }
}
