//! Pending steps carried over others' steps.
ghost use Rattle.std.specs.Prelude.{◌≡◌, ◌<◌, ◌^◌, ◌++◌, ◌∷◌, [], ℕ, List, None, Ok, IfOk, OnOk, All};
ghost use Rattle.pm_map.specs.declared.mapping.Mirrored.{Mirrored};
ghost use Rattle.pm_map.specs.Mirrors.{fronted, enclosed};
ghost use Rattle.pm_map.specs.Through.{SameShape};
ghost use Rattle.pm_map.specs.Fits.{FitsSizes, FitBetween};
ghost use Rattle.pm_frames.specs.Courses.{AreSmall};
ghost use Rattle.pm_frames.specs.Routes.{Guides};
ghost use Rattle.pm_authority.specs.Runs.{AllApply};
ghost use Rattle.pm_history.specs.Undos.{own_item};
ghost use Rattle.pm_client.specs.Rebases.{Rebasing, maps_of, start, rebased};
ghost use Rattle.pm_client.specs.Rebasables.{NamedHasMap, CanRebase, CanRebaseOver, MayRebase};
ghost use Rattle.pm_client.specs.Rebasers.{IsAt, GoesOn};

use crate::making::item_of;
use pm_authority::{Name, Named};
use pm_change::{Change, Failed};
use pm_frames::{Growing, Route};
use pm_history::Item;
use pm_list::Listed;
use pm_map::{Mapping, StepMap};
use std::alloc::{AllocError, Global};

/// How far pending steps were carried. `route` tells where positions go from the document before those that were gone through
/// to `doc`: over the maps back of them all, from the latest to the first, over others' maps, and over the maps of the steps
/// kept, each of which is the mirror of the map back of the step that it comes from. `items`: the items of the steps kept,
/// none of which says yet what its step undoes.
#[derive(Drop)]
pub struct Rebaser<C: Change> {
    pub doc: C::Doc,
    pub route: Route,
    pub kept: Listed<Named<C>>,
    pub items: Listed<Item<C>>,
    /// The serials of the steps that were lost, in the order in which these were pending.
    pub dropped: Listed<u64>,
}

impl<C: Change> Rebaser<C> {
    /// Carries one step more over the maps so far. It is kept, under its name, where something of it is left that applies
    /// to the document so far; else it is lost.
    fn go_on(&mut self, alloc: Global, rules: &C::Rules, step: &Named<C>) -> Result<(), AllocError>
        requires { ((before : C.Doc) × (so : Rebasing C C.Rules C.Doc C.Reason)
            × (MayRebase C.means rules.now before so step.now × IsAt C.means self.old so (C.means.size before))) }
        ensures { OnOk result (GoesOn C.means rules.now self.old step.now self.new) }
    {
        let back = step.change.step_map().inverted();
        let change = match step.change.carry(alloc, &self.route)? {
            Some(change) => change,
            None => return self.lose(alloc, back, step.name.serial),
        };
        match change.apply(alloc, rules, &self.doc) {
            Ok(doc) => self.hold(alloc, rules, back, step.name, change, doc),
            Err(Failed::Reason(_)) => self.lose(alloc, back, step.name.serial),
            Err(Failed::NoMemory) => Err(AllocError),
        }
    }

    /// Drops the step of this serial, whose map back stands at the front from now on.
    fn lose(&mut self, alloc: Global, back: StepMap, serial: u64) -> Result<(), AllocError>
        requires small { AreSmall back }
        ensures { OnOk result ((so : Rebasing C C.Rules C.Doc C.Reason) (n k : ℕ) → k < 2 ^ 32 → FitsSizes back k n → IsAt C.means self.old so n
            → IsAt C.means self.new (record so { maps = fronted so.maps back; dropped = so.dropped ++ serial ∷ [] }) k) }
    {
        self.dropped.push(serial)?;
        self.route.put_front(alloc, &back)?;
        Ok(())
    }

    /// Keeps a step in its carried form, which makes this document. Its map stands after, as the mirror of the map back.
    fn hold(
        &mut self,
        alloc: Global,
        rules: &C::Rules,
        back: StepMap,
        name: Name,
        change: C,
        doc: C::Doc,
    ) -> Result<(), AllocError>
        requires small { AreSmall back }
        requires good { C.means.is_good rules.now self.old.doc }
        requires applies { C.means.outcome rules.now change self.old.doc ≡ Ok doc }
        requires mirrors { SameShape back (C.means.step_map change) }
        ensures { OnOk result ((so : Rebasing C C.Rules C.Doc C.Reason) (n k : ℕ) → k < 2 ^ 32 → FitsSizes back k n → IsAt C.means self.old so n
            → IsAt C.means self.new (record so { doc = doc; maps = enclosed so.maps back (C.means.step_map change); kept = so.kept ++ record { name = name; change = change } ∷ []; items = so.items ++ own_item C.means rules.now name.client so.doc change name.serial None ∷ [] }) k) }
    {
        let item = item_of(alloc, rules, &self.doc, name, &change)?;
        let behind = change.step_map();
        self.route.enclose(alloc, &back, &behind)?;
        self.items.push(item)?;
        self.kept.push(Named { name, change })?;
        self.doc = doc;
        Ok(())
    }
}

/// Carries steps over the maps that this route stands for, which lead to this document.
fn rebase<C: Change>(
    alloc: Global,
    rules: &C::Rules,
    doc: C::Doc,
    route: Route,
    steps: &[Named<C>],
) -> Result<Rebaser<C>, AllocError>
    requires { ((old : C.Doc) × (maps : List Mirrored)
        × (CanRebase C.means rules.now old (start C.means doc maps) steps.now × Guides route maps (C.means.size old) (C.means.size doc))) }
    ensures { IfOk result (λ r. (old end : C.Doc) (maps : List Mirrored) → CanRebase C.means rules.now old (start C.means doc maps) steps.now
        → AllApply C.means rules.now old steps.now end → Guides route maps (C.means.size old) (C.means.size doc)
        → IsAt C.means r (rebased C.means rules.now (start C.means doc maps) steps.now) (C.means.size end)) }
{
    let mut so_far = Rebaser {
        doc,
        route,
        kept: Listed::new(alloc),
        items: Listed::new(alloc),
        dropped: Listed::new(alloc),
    };
    for step in steps {
        so_far.go_on(alloc, rules, step)?;
    }
    Ok(so_far)
}

/// Carries pending steps over others' steps, which lead to this base.
/// ProseMirror: `rebaseSteps`.
pub fn rebase_over<C: Change>(
    alloc: Global,
    rules: &C::Rules,
    base: &C::Doc,
    foreign: &[Named<C>],
    pending: &[Named<C>],
) -> Result<Rebaser<C>, AllocError>
    requires { ((end : C.Doc) × CanRebaseOver C.means rules.now base.now foreign.now pending.now end) }
    ensures { IfOk result (λ r. (end : C.Doc) → CanRebaseOver C.means rules.now base.now foreign.now pending.now end
        → IsAt C.means r (rebased C.means rules.now (start C.means base.now (maps_of C.means foreign.now)) pending.now) (C.means.size end)) }
{
    let route = route_over(alloc, foreign, pending.len())?;
    rebase(alloc, rules, C::copy_doc(alloc, base)?, route, pending)
}

/// What tells where positions go over the maps of steps one after another, in no pairs, over which so many pending ones are to
/// be carried.
fn route_over<C: Change>(
    alloc: Global,
    steps: &[Named<C>],
    pending: usize,
) -> Result<Route, AllocError>
    requires maps { All (NamedHasMap C.means) steps.now }
    requires fit { ((n : ℕ) × (k : ℕ) × FitBetween (maps_of C.means steps.now) n k) }
    ensures { IfOk result (λ r. (n k : ℕ) → FitBetween (maps_of C.means steps.now) n k → Guides r (maps_of C.means steps.now) n k) }
{
    let mut route = Route::for_steps(alloc, steps.len(), pending);
    for step in steps {
        let map = step.change.step_map();
        route.push(alloc, &map)?;
    }
    Ok(route)
}

/// The maps of steps one after another, in no pairs.
pub fn maps_over<C: Change>(alloc: Global, steps: &[Named<C>]) -> Result<Mapping, AllocError>
    requires { All (NamedHasMap C.means) steps.now }
    ensures { IfOk result (λ ms. ms ≡ maps_of C.means steps.now) }
{
    let mut maps = Mapping::new(alloc);
    for step in steps {
        maps.push(step.change.step_map())?;
    }
    Ok(maps)
}
