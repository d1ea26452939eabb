//! What an editor asks for becomes steps.
use pm_change::{Change, MakeError};
use std::alloc::Global;

/// The steps of an op, and the document that they lead to, where the maker has it.
#[derive(Drop)]
pub struct Made<C: Change> {
    pub steps: Vec<C>,
    pub end: Option<C::Doc>,
}

/// Makes the steps of an op on a document.
pub trait Maker<C: Change> {
    ghost use Rattle.std.specs.Prelude.{◌≡◌, Result, List, [], Ok, Some, IfOk, IfSome};
    ghost use Rattle.pm_change.specs.Changes.{fold};
    ghost use Rattle.pm_change.specs.declared.no_step.NoStep.{NoStep};
    ghost use Rattle.pm_session.specs.Makes.{GivesSteps};

    type Op;

    /// The steps of an op on a good document, or why there are none.
    ghost makes: { Self → C.Rules → C.Doc → Self.Op → Result (List C) NoStep };

    /// The steps of this op on this document; `NoStep` where the op makes none there, with the reason that it means. A maker
    /// that has made the document which the steps lead to gives it too, so that nobody makes it a second time.
    fn steps(
        &self,
        alloc: Global,
        rules: &C::Rules,
        doc: &C::Doc,
        op: &Self::Op,
    ) -> Result<Made<C>, MakeError>
        requires { C.means.is_good rules.now doc.now }
        ensures steps { GivesSteps (makes self.now rules.now doc.now op.now) result }
        // Where a document comes with the steps, they apply to the one lent, one after another, and give it.
        ensures end { IfOk result (λ made. IfSome made.end (λ end. fold C.means rules.now doc.now made.steps.items ≡ Some end)) };

    /// An op makes at least one step, or none is told.
    ghost some: { (maker : Self) (rules : C.Rules) (doc : C.Doc) (op : Self.Op) → makes maker rules doc op ≡ Ok [] → ⊥ };
}
