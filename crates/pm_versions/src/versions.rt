//! A log with checkpoints.
ghost use Rattle.std.specs.Prelude.{◌≡◌, ◌≤◌, ◌==◌, ◌%◌, [], ◌∷◌, ◌++◌, length, if◌then◌else◌, slice_get, Some, IfOk, OnOk, OnErr};
ghost use Rattle.pm_authority.specs.Runs.{AllApply};
ghost use Rattle.pm_versions.specs.Checkpoints.{checkpoints, IsVersions};

use pm_authority::Named;
use pm_change::Change;
use pm_list::Listed;
use std::alloc::{AllocError, Global};

/// How many steps lie between two checkpoints.
pub const SPACING: usize = 64;

/// A first document, and named steps that apply to it one after another. `doc` is the document after them. It keeps the document
/// after each `SPACING` steps, too: those after the first document are `later`.
#[derive(Drop)]
pub struct Versions<C: Change> {
    pub(crate) first: C::Doc,
    pub(crate) doc: C::Doc,
    pub(crate) later: Listed<C::Doc>,
    pub(crate) log: Listed<Named<C>>,
}

impl<C: Change> Versions<C> {
    /// This first document, and no step yet. It keeps a copy.
    pub fn new(alloc: Global, doc: C::Doc) -> Result<Versions<C>, AllocError>
        ensures new { IfOk result (λ v. v ≡ record { first = doc; doc = doc; later = []; log = [] }) }
        // Under rules by which the document is good it is what the calls ask for.
        ensures kept { (rules : C.Rules) → C.means.is_good rules doc → IfOk result (IsVersions C.means rules) }
    {
        Ok(Versions {
            first: C::copy_doc(alloc, &doc)?,
            doc,
            later: Listed::new(alloc),
            log: Listed::new(alloc),
        })
    }

    /// The document that the steps begin with.
    pub fn first(&self) -> &C::Doc
        ensures { result.now ≡ self.now.first }
    {
        &self.first
    }

    /// The document after all steps.
    pub fn doc(&self) -> &C::Doc
        ensures { result.now ≡ self.now.doc }
    {
        &self.doc
    }

    /// The steps, the oldest first.
    pub fn log(&self) -> &[Named<C>]
        ensures { result.now ≡ self.now.log }
    {
        self.log.as_slice()
    }

    /// Appends a step. `after` is the document that it gives, which is kept where a checkpoint is due. Want of
    /// memory leaves all as it was.
    pub fn push(
        &mut self,
        alloc: Global,
        rules: &C::Rules,
        step: &Named<C>,
        after: &C::Doc,
    ) -> Result<(), AllocError>
        requires kept { IsVersions C.means rules.now self.old }
        requires gives { AllApply C.means rules.now self.old.doc (step.now ∷ []) after.now }
        ensures first { self.new.first ≡ self.old.first }
        ensures doc { OnOk result (self.new.doc ≡ after.now) }
        ensures log { OnOk result (self.new.log ≡ self.old.log ++ step.now ∷ []) }
        ensures err { OnErr result (self.new ≡ self.old) }
        ensures kept { IsVersions C.means rules.now self.new }
    {
        let _rules = rules;
        let doc = C::copy_doc(alloc, after)?;
        let copied = step.copy(alloc)?;
        self.log.push(copied)?;
        if let Err(error) = self.mark(alloc, after) {
            let _taken = self.log.pop();
            return Err(error);
        }
        self.doc = doc;
        Ok(())
    }

    /// Keeps the document after the last step, where a checkpoint is due.
    fn mark(&mut self, alloc: Global, after: &C::Doc) -> Result<(), AllocError>
        ensures marked { OnOk result (self.new ≡ record self.old {
          later = if length self.old.log % SPACING == 0 then self.old.later ++ after.now ∷ [] else self.old.later;
        }) }
        ensures err { OnErr result (self.new ≡ self.old) }
    {
        if self.log.len() % SPACING == 0 {
            self.later.push(C::copy_doc(alloc, after)?)?;
        }
        Ok(())
    }

    /// The document after the first i times `SPACING` steps.
    pub fn checkpoint(&self, i: usize) -> &C::Doc
        requires { i ≤ length self.now.later }
        ensures { slice_get (checkpoints self.now) i ≡ Some result.now }
    {
        if i == 0 {
            &self.first
        } else {
            &self.later.as_slice()[i - 1]
        }
    }
}
