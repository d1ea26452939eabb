//! Entries taken back, of any change.
ghost use Rattle.std.specs.Prelude.{◌≡◌, Some, IfOk};
ghost use Rattle.pm_change.specs.Changes.{fold};
ghost use Rattle.pm_authority.specs.Runs.{changes_of};
ghost use Rattle.pm_change.specs.Failing.{Answers};
ghost use Rattle.pm_revert.specs.Takings.{taken_back, EndsAt};

use crate::backs::backs_of;
use crate::taking::{Taking, take_all};
use pm_authority::{Named, Refusal};
use pm_change::{Change, Failed};
use pm_client::rebasing::maps_over;
use pm_list::Listed;
use std::alloc::Global;

/// The steps that take entries back, and the document after them.
#[derive(Drop)]
pub struct Taken<D, C> {
    pub doc: D,
    pub steps: Listed<C>,
}

/// Takes these entries back on the document after them and the later ones. The changes that undo them are made from the last entry to
/// the first, each carried over all that came since: one of which nothing is left is passed over. `Reason` comes at the first that
/// does not apply, by the place of its entry among `entries`, counted from 0, and the reason.
///
/// `before` must be good, and the entries and then the later ones must apply to it one after another and lead to `doc`.
pub fn take_back<C: Change>(
    alloc: Global,
    rules: &C::Rules,
    before: &C::Doc,
    entries: &[Named<C>],
    later: &[Named<C>],
    doc: &C::Doc,
) -> Result<Taken<C::Doc, C>, Failed<Refusal<C::Reason>>>
    requires { EndsAt C.means rules.now before.now entries.now later.now doc.now }
    ensures taken { Answers (taken_back C.means rules.now before.now (changes_of entries.now) later.now doc.now) result }
    // The steps apply one after another and lead to the document.
    ensures applies { IfOk result (λ t. fold C.means rules.now doc.now t.steps ≡ Some t.doc) }
{
    let backs = backs_of(alloc, rules, before, entries)?;
    let so_far = C::copy_doc(alloc, doc)?;
    let maps = maps_over(alloc, later)?;
    let start = Taking {
        doc: so_far,
        maps,
        made: Listed::new(alloc),
    };
    match take_all(alloc, rules, start, backs.as_slice()) {
        Ok(so) => {
            let Taking {
                doc: left,
                maps: _,
                made,
            } = so;
            Ok(Taken {
                doc: left,
                steps: made,
            })
        }
        Err(failed) => Err(failed),
    }
}
