//! Changes that are known to apply, and a counter of them, which takes no bytes.
ghost use Rattle.std.specs.Prelude.{◌≡◌, ◌+◌, ◌<◌, ◌≤◌, length, Ok, IfOk, OnOk};
ghost use Rattle.pm_authority.specs.Runs.{AllApply};

use pm_authority::Named;
use pm_change::{Change, Failed};
use std::alloc::{AllocError, Global};
use std::marker::Model;
use std::sync::ledger::{Blank, Book, Ledger, Share};

/// A counter that a caller lends. A step is one change that is applied, and adds one to it. A contract sees the number of
/// steps. Another counter of the same ledger can't be made, so that no call can count elsewhere.
#[derive(Drop)]
pub struct Steps<L: Ledger> {
    book: Book<L>,
    share: Share<L>,
}

impl<L: Ledger> Model for Steps<L> {
    ghost use Rattle.std.specs.Prelude.{ℕ, ◌<◌};
    ghost use Rattle.std.specs.Coded.{coded_ℕ};

    ghost Value = { ℕ };

    ghost coded = { coded_ℕ };

    ghost view = { λ s. s.share.amount };

    ghost invariant = { λ s. 0 < s.share.parts };
}

impl<L: Ledger> Steps<L> {
    /// A counter of this ledger, which stands at 0. It takes no memory.
    pub fn open(blank: Blank) -> Steps<L>
        requires name { blank.name ≡ L.name }
        requires parts { blank.parts ≡ L.parts }
        requires some { 0 < blank.parts }
        ensures { result ≡ 0 }
    {
        let (book, share) = blank.open::<L>();
        Steps { book, share }
    }

    /// One step more.
    fn count(&mut self)
        ensures { self.new ≡ self.old + 1 }
    {
        let Steps { book, share } = self;
        book.add(share, 1);
    }
}

/// The document after this change, which applies to the good document lent: one step.
pub fn apply_counted<C: Change, L: Ledger>(
    alloc: Global,
    change: &C,
    rules: &C::Rules,
    doc: &C::Doc,
    steps: &mut Steps<L>,
) -> Result<C::Doc, AllocError>
    requires good { C.means.is_good rules.now doc.now }
    requires applies { ((next : C.Doc) × (C.means.outcome rules.now change.now doc.now ≡ Ok next)) }
    ensures gives { IfOk result (λ next. C.means.outcome rules.now change.now doc.now ≡ Ok next) }
    ensures one { steps.new ≡ steps.old + 1 }
{
    steps.count();
    applied(alloc, change, rules, doc)
}

/// The document after this change, which applies to the good document lent.
pub fn applied<C: Change>(
    alloc: Global,
    change: &C,
    rules: &C::Rules,
    doc: &C::Doc,
) -> Result<C::Doc, AllocError>
    requires good { C.means.is_good rules.now doc.now }
    requires applies { ((next : C.Doc) × (C.means.outcome rules.now change.now doc.now ≡ Ok next)) }
    ensures { IfOk result (λ next. C.means.outcome rules.now change.now doc.now ≡ Ok next) }
{
    match change.apply(alloc, rules, doc) {
        Ok(next) => Ok(next),
        Err(Failed::NoMemory) => Err(AllocError),
        Err(Failed::Reason(_)) => unreachable!(),
    }
}

/// The document after these changes, each of which applies to what the ones before it give: a step for each.
pub fn advance<C: Change, L: Ledger>(
    alloc: Global,
    rules: &C::Rules,
    doc: C::Doc,
    changes: &[Named<C>],
    steps: &mut Steps<L>,
) -> Result<C::Doc, AllocError>
    requires good { C.means.is_good rules.now doc }
    requires applies { ((end : C.Doc) × AllApply C.means rules.now doc changes.now end) }
    ensures gives { IfOk result (AllApply C.means rules.now doc changes.now) }
    ensures counts { OnOk result (steps.new ≡ steps.old + length changes.now) }
    ensures most { steps.new ≤ steps.old + length changes.now }
{
    let mut so_far = doc;
    for step in changes {
        so_far = apply_counted(alloc, &step.change, rules, &so_far, steps)?;
    }
    Ok(so_far)
}
