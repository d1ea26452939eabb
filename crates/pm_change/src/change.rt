//! The trait of a change.
ghost use Rattle.std.specs.Prelude.{◌≡◌, ◌<◌, ◌^◌, ℕ, IfOk, Ok};
ghost use Rattle.pm_map.specs.Positions.{MayLead, EachLed};
ghost use Rattle.pm_change.specs.Changes.{Meaning, Laws};
ghost use Rattle.pm_change.specs.Failing.{Answers};

use crate::failed::Failed;
use pm_map::{Positions, StepMap};
use std::alloc::{AllocError, Global};

/// A change of a document under rules that are lent to each call, such as a schema.
pub trait Change: Sized + Drop {
    /// What says which documents are good.
    type Rules;

    /// What is changed.
    type Doc: Drop;

    /// Why a change does not apply.
    type Reason: Drop;

    ghost means: { Meaning Self.Rules Self.Doc Self.Reason Self };

    /// The document after this change. `Reason` comes exactly where the change does not apply to the document under
    /// these rules, and says why. The document lent must be good, and stays as it is.
    fn apply(
        &self,
        alloc: Global,
        rules: &Self::Rules,
        doc: &Self::Doc,
    ) -> Result<Self::Doc, Failed<Self::Reason>>
        requires { means.is_good rules.now doc.now }
        ensures { Answers (means.outcome rules.now self.now doc.now) result };

    /// The changes that undo this one, to be made one after another on the document after it. `doc` is the document
    /// before it, which must be good, and to which this change must apply.
    fn inverse(
        &self,
        alloc: Global,
        rules: &Self::Rules,
        doc: &Self::Doc,
    ) -> Result<Vec<Self>, AllocError>
        requires good { means.is_good rules.now doc.now }
        requires applies { ((next : Self.Doc) × (means.outcome rules.now self.now doc.now ≡ Ok next)) }
        ensures { IfOk result (λ v. v.items ≡ means.inverse rules.now self.now doc.now) };

    /// How positions move over this change. The change must be within some size below 2^32 tokens, as one that applies
    /// to a good document is.
    fn step_map(&self) -> StepMap
        requires { ((n : ℕ) × (n < 2 ^ 32) × means.is_within self.now n) }
        ensures { result ≡ means.step_map self.now };

    /// This change where a mapping leads it; None where nothing of it is left. `positions` tells where positions go over
    /// that mapping, which must lead from a document of a size that the change is within.
    fn carry<P: Positions>(&self, alloc: Global, positions: &P) -> Result<Option<Self>, AllocError>
        requires { MayLead means.is_within P.leads self.now positions.now }
        ensures { EachLed means.is_within P.leads self.now positions.now
            (λ ms. IfOk result (λ o. o ≡ means.carry self.now ms)) };

    /// The document's size in tokens. The size of a good document is below 2^32.
    fn size(doc: &Self::Doc) -> usize
        requires { means.size doc.now < 2 ^ 32 }
        ensures { result ≡ means.size doc.now };

    /// A change equal to this one.
    fn copy(&self, alloc: Global) -> Result<Self, AllocError>
        ensures { IfOk result (λ c. c ≡ self.now) };

    /// A document equal to `doc`.
    fn copy_doc(alloc: Global, doc: &Self::Doc) -> Result<Self::Doc, AllocError>
        ensures { IfOk result (λ d. d ≡ doc.now) };

    // Below the last method, so that it is a law, which each implementation has to prove.
    ghost laws: { Laws means };
}
