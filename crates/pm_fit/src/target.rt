//! The range that a slice is to replace, and one candidate for it.
ghost use Rattle.std.specs.Prelude.{◌≡◌, Some, IfOk, IfSome, option_map};
ghost use Rattle.pm_tokens.specs.Faults.{Valid};
ghost use Rattle.pm_schema.specs.Documents.{documents_of};
ghost use Rattle.pm_fit.specs.Fitteds.{step_in, Makes};
ghost use Rattle.pm_fit.specs.Fits.{sided, step_with};

use crate::fitted::Fitted;
use pm_change::Failed;
use pm_node::{Document, Fragment};
use pm_replace::replace;
use pm_schema::Schema;
use pm_slice::Slice;
use pm_step::{ReplaceStep, Step};
use std::alloc::{AllocError, Global};

/// The range from..to of a document. Positions are in tokens.
#[derive(Drop)]
pub struct Target<'a> {
    pub schema: &'a Schema,
    pub doc: &'a Document,
    pub from: u64,
    pub to: u64,
}

impl Target<'_> {
    /// The step that replaces the range by the content with these open sides. None where that is no slice, or where the
    /// document can't be replaced so.
    pub fn try_sides(
        &self,
        alloc: Global,
        content: &Fragment,
        open_start: usize,
        open_end: usize,
    ) -> Result<Option<Fitted>, AllocError>
        requires { Valid (documents_of self.now.schema.now.spec) self.now.doc.now }
        ensures step { IfOk result (λ o. option_map step_in o
            ≡ step_with (documents_of self.now.schema.now.spec) self.now.doc.now self.now.from self.now.to (sided content.now open_start open_end)) }
        ensures makes { IfOk result (λ o. IfSome o (Makes (documents_of self.now.schema.now.spec) self.now.doc.now)) }
    {
        let content = content.copy(alloc)?;
        match Slice::new(alloc, content, open_start, open_end) {
            Ok(slice) => self.try_slice(alloc, slice),
            Err(_) => Ok(None),
        }
    }

    /// The step that replaces the range by the slice. None where the document can't be replaced so.
    fn try_slice(&self, alloc: Global, slice: Slice) -> Result<Option<Fitted>, AllocError>
        requires { Valid (documents_of self.now.schema.now.spec) self.now.doc.now }
        ensures step { IfOk result (λ o. option_map step_in o
            ≡ step_with (documents_of self.now.schema.now.spec) self.now.doc.now self.now.from self.now.to (Some slice)) }
        ensures makes { IfOk result (λ o. IfSome o (Makes (documents_of self.now.schema.now.spec) self.now.doc.now)) }
    {
        match replace(alloc, self.schema, self.doc, self.from, self.to, &slice) {
            Ok(doc) => {
                let step = Step::Replace(ReplaceStep {
                    from: self.from,
                    to: self.to,
                    slice,
                    structure: false,
                });
                Ok(Some(Fitted { step, doc }))
            }
            Err(Failed::Reason(_)) => Ok(None),
            Err(Failed::NoMemory) => Err(AllocError),
        }
    }
}
