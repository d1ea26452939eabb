//! Entries of a log of steps taken back.
ghost use Rattle.std.specs.Prelude.{◌≡◌, ◌↔◌, true, Some, IfOk};
ghost use Rattle.pm_change.specs.Changes.{fold};
ghost use Rattle.pm_authority.specs.Runs.{changes_of};
ghost use Rattle.pm_apply.specs.Changes.{meaning};
ghost use Rattle.pm_selective.specs.Carried.{left_tokens};
ghost use Rattle.pm_revert.specs.Aparts.{lies_apart};
ghost use Rattle.pm_revert.specs.Takings.{taken_back, EndsAt};
ghost use Rattle.pm_revert.specs.Reverts.{LieApartFrom, Tells};

use crate::taken::{Taken, take_back};
use crate::telling::lie_apart;
use pm_apply::DocChange;
use pm_authority::{Named, Refusal};
use pm_change::Failed;
use pm_list::Listed;
use pm_meaning::Reason;
use pm_node::Document;
use pm_schema::Schema;
use std::alloc::Global;

/// The steps that take entries back, in order, and the document after them. `apart`: all later entries lie apart from those that
/// are taken back.
#[derive(Drop)]
pub struct Reverted {
    pub doc: Document,
    pub steps: Listed<DocChange>,
    pub apart: bool,
}

/// Takes these entries back on the document after them and the later ones, as `take_back` does. `Reason` comes at the first step
/// that does not apply: the place, counted from 0, of the entry that it would take back, and the reason.
///
/// `apart` is true exactly where there is at least one entry to take back, each of the entries and of the later ones is a replace or
/// a replaceAround whose gap is not pinched, and at least one token stands between the ranges of each later one and those of the
/// entries. Where it is true, the tokens left are those of the later ones, carried and spliced in order onto the document before.
///
/// `before` must be valid, and the entries and then the later ones must apply to it one after another and lead to `doc`.
pub fn revert(
    alloc: Global,
    schema: &Schema,
    before: &Document,
    entries: &[Named<DocChange>],
    later: &[Named<DocChange>],
    doc: &Document,
) -> Result<Reverted, Failed<Refusal<Reason>>>
    requires { EndsAt meaning schema.now before.now entries.now later.now doc.now }
    ensures taken { Tells (taken_back meaning schema.now before.now (changes_of entries.now) later.now doc.now) result }
    // The steps apply one after another and lead to the document.
    ensures applies { IfOk result (λ r. fold meaning schema.now doc.now r.steps ≡ Some r.doc) }
    ensures apart { IfOk result (λ r. (r.apart ≡ true) ↔ LieApartFrom (changes_of entries.now) (changes_of later.now)) }
    // The same by a test that computes.
    ensures told { IfOk result (λ r. r.apart ≡ lies_apart (changes_of entries.now) (changes_of later.now)) }
    // What is left: the later entries, carried and spliced onto the document before those that are taken back.
    ensures leaves { IfOk result (λ r. r.apart ≡ true
        → left_tokens (changes_of entries.now) (changes_of later.now) before.now.tokens ≡ Some r.doc.tokens) }
{
    let taken = match take_back(alloc, schema, before, entries, later, doc) {
        Ok(taken) => taken,
        Err(failed) => return Err(failed),
    };
    let apart = lie_apart(alloc, entries, later)?;
    let Taken { doc: left, steps } = taken;
    Ok(Reverted {
        doc: left,
        steps,
        apart,
    })
}
