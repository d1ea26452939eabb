//! Own steps made one after another, with their items.
ghost use Rattle.std.specs.Prelude.{◌≡◌, ◌∷◌, [], None, Ok, IfOk, IfSome, All};
ghost use Rattle.pm_authority.specs.Runs.{AllApply};
ghost use Rattle.pm_change.specs.Failing.{Answers};
ghost use Rattle.pm_history.specs.Undos.{own_item};
ghost use Rattle.pm_client.specs.Makes.{made_all};
ghost use Rattle.pm_client.specs.Rebases.{ranges_of};
ghost use Rattle.pm_client.specs.Rebasables.{NamedHasMap};

use pm_authority::{Name, Named, Refusal};
use pm_change::{Change, Failed};
use pm_history::Item;
use pm_list::Listed;
use pm_map::StepMap;
use std::alloc::{AllocError, Global};

/// The document after the steps made, and their items.
#[derive(Drop)]
pub struct Made<D, C> {
    pub doc: D,
    pub items: Listed<Item<C>>,
}

/// Makes own steps of an edit, one after another. `Reason` comes exactly where one of them does not apply, and names the
/// first. The document lent must be good, and stays as it is.
pub fn make_all<C: Change>(
    alloc: Global,
    rules: &C::Rules,
    doc: &C::Doc,
    steps: &[Named<C>],
) -> Result<Made<C::Doc, C>, Failed<Refusal<C::Reason>>>
    requires { C.means.is_good rules.now doc.now }
    ensures { Answers (made_all C.means rules.now doc.now steps.now) result }
{
    let mut so_far = Made {
        doc: C::copy_doc(alloc, doc)?,
        items: Listed::new(alloc),
    };
    let mut index = 0;
    for step in steps {
        let next = match step.change.apply(alloc, rules, &so_far.doc) {
            Ok(next) => next,
            Err(Failed::Reason(reason)) => return Err(Failed::Reason(Refusal { index, reason })),
            Err(Failed::NoMemory) => return Err(Failed::NoMemory),
        };
        let item = item_of(alloc, rules, &so_far.doc, step.name, &step.change)?;
        so_far.items.push(item)?;
        so_far.doc = next;
        index += 1;
    }
    Ok(so_far)
}

/// Makes own steps of an edit, as `make_all` does, where the document that they lead to may be in hand. One step that leads
/// to it is not applied again.
pub fn make_to<C: Change>(
    alloc: Global,
    rules: &C::Rules,
    doc: &C::Doc,
    steps: &[Named<C>],
    end: Option<C::Doc>,
) -> Result<Made<C::Doc, C>, Failed<Refusal<C::Reason>>>
    requires good { C.means.is_good rules.now doc.now }
    requires leads { IfSome end (AllApply C.means rules.now doc.now steps.now) }
    ensures { Answers (made_all C.means rules.now doc.now steps.now) result }
{
    match end {
        Some(end) => {
            if steps.len() != 1 {
                return make_all(alloc, rules, doc, steps);
            }
            Ok(made_one(alloc, rules, doc, &steps[0], end)?)
        }
        None => make_all(alloc, rules, doc, steps),
    }
}

/// What one step of an edit makes, which leads to this document.
fn made_one<C: Change>(
    alloc: Global,
    rules: &C::Rules,
    doc: &C::Doc,
    step: &Named<C>,
    end: C::Doc,
) -> Result<Made<C::Doc, C>, AllocError>
    requires good { C.means.is_good rules.now doc.now }
    requires leads { C.means.outcome rules.now step.now.change doc.now ≡ Ok end }
    ensures { IfOk result (λ made. made_all C.means rules.now doc.now (step.now ∷ []) ≡ Ok made) }
{
    let mut items = Listed::new(alloc);
    items.push(item_of(alloc, rules, doc, step.name, &step.change)?)?;
    Ok(Made { doc: end, items })
}

/// The item of an own step that was made on this document, and not to undo another.
pub fn item_of<C: Change>(
    alloc: Global,
    rules: &C::Rules,
    doc: &C::Doc,
    name: Name,
    change: &C,
) -> Result<Item<C>, AllocError>
    requires good { C.means.is_good rules.now doc.now }
    requires applies { ((next : C.Doc) × (C.means.outcome rules.now change.now doc.now ≡ Ok next)) }
    ensures { IfOk result (λ i. i ≡ own_item C.means rules.now name.client doc.now change.now name.serial None) }
{
    let inverse = Listed::from_vec(change.inverse(alloc, rules, doc)?);
    Item::own(alloc, name, change.step_map(), inverse, None)
}

/// The maps of these steps, in order.
pub fn step_maps<C: Change>(alloc: Global, steps: &[Named<C>]) -> Result<Vec<StepMap>, AllocError>
    requires { All (NamedHasMap C.means) steps.now }
    ensures { IfOk result (λ v. v.items ≡ ranges_of C.means steps.now) }
{
    let mut maps = Vec::new(alloc);
    for step in steps {
        maps.push(step.change.step_map())?;
    }
    Ok(maps)
}
