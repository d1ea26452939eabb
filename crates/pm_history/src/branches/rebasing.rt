//! Steps in place of the last ones, as a rebase puts them.
ghost use Rattle.std.specs.Prelude.{◌≡◌, ◌≤◌, ◌<◌, length, OnOk, OnErr};
ghost use Rattle.pm_history.specs.Histories.{rebased};
ghost use Rattle.pm_history.specs.Drops.{replaced, left_by};
ghost use Rattle.pm_history.specs.Trims.{trimmed, IsTrimmed};

use crate::branch::Branch;
use crate::branches::Branches;
use crate::dropped::{any_dropped, foreign_items, without_dropped};
use crate::item::Item;
use crate::live::{Live, live_names};
use crate::trimming::thin_kept;
use pm_list::Listed;
use pm_map::StepMap;
use std::alloc::{AllocError, Global};

impl<C> Branches<C> {
    /// Puts these foreign steps and the own steps that are kept in place of the last `gone` items, or of all where fewer are
    /// kept. An own step that is gone and not kept leaves its event; the event stays. Then the history is trimmed as by
    /// `note`. Out of memory, nothing changes.
    pub fn rebased(
        &mut self,
        alloc: Global,
        gone: usize,
        foreign: Vec<StepMap>,
        kept: Vec<Item<C>>,
    ) -> Result<(), AllocError>
    where
        C: Drop,
        ensures ok { OnOk result (self.new ≡ trimmed (rebased self.old gone foreign.items kept.items)) }
        ensures err { OnErr result (self.new ≡ self.old) }
    {
        let at = self.items().len().saturating_sub(gone);
        if any_dropped(&self.items()[at..], kept.as_slice()) {
            self.rebased_dropping(alloc, at, foreign, kept)
        } else if at > 0 && self.is_settled() && are_few(kept.len(), at) {
            self.rebased_settled(alloc, at, foreign, kept)
        } else {
            self.rebased_whole(alloc, at, foreign, kept)
        }
    }

    /// Puts other items in place of those from place `at` on. Nothing was left to drop, and the first item stays, so only the
    /// steps kept are looked at.
    fn rebased_settled(
        &mut self,
        alloc: Global,
        at: usize,
        foreign: Vec<StepMap>,
        kept: Vec<Item<C>>,
    ) -> Result<(), AllocError>
    where
        C: Drop,
        requires within { (0 < at) × (at ≤ length self.old.items) }
        requires trimmed { IsTrimmed self.old }
        ensures ok { OnOk result (self.new ≡ trimmed (replaced self.old at foreign.items kept.items)) }
        ensures err { OnErr result (self.new ≡ self.old) }
    {
        let thinned = thin_kept(alloc, kept, self.undo_events(), self.redo_events());
        self.replace(alloc, at, foreign, thinned)?;
        self.settle();
        Ok(())
    }

    /// The same where it is not known what is left to drop.
    fn rebased_whole(
        &mut self,
        alloc: Global,
        at: usize,
        foreign: Vec<StepMap>,
        kept: Vec<Item<C>>,
    ) -> Result<(), AllocError>
    where
        C: Drop,
        requires { at ≤ length self.old.items }
        ensures ok { OnOk result (self.new ≡ trimmed (replaced self.old at foreign.items kept.items)) }
        ensures err { OnErr result (self.new ≡ self.old) }
    {
        let names = live_names(alloc, self.undo.events(), self.redo.events())?;
        let live = Live::of(alloc, names.as_slice())?;
        self.replace(alloc, at, foreign, kept)?;
        self.trim(alloc, names.as_slice(), &live);
        Ok(())
    }

    /// The same where steps are dropped, which leave their events.
    fn rebased_dropping(
        &mut self,
        alloc: Global,
        at: usize,
        foreign: Vec<StepMap>,
        kept: Vec<Item<C>>,
    ) -> Result<(), AllocError>
    where
        C: Drop,
        requires { at ≤ length self.old.items }
        ensures ok { OnOk result (self.new ≡ trimmed (left_by self.old at foreign.items kept.items)) }
        ensures err { OnErr result (self.new ≡ self.old) }
    {
        let out = &self.items()[at..];
        let undo = without_dropped(alloc, self.undo_events(), out, kept.as_slice())?;
        let redo = without_dropped(alloc, self.redo_events(), out, kept.as_slice())?;
        let names = live_names(alloc, undo.events(), redo.events())?;
        let live = Live::of(alloc, names.as_slice())?;
        self.replace(alloc, at, foreign, kept)?;
        self.take_events(undo, redo);
        self.trim(alloc, names.as_slice(), &live);
        Ok(())
    }

    /// These are its events from now on.
    fn take_events(&mut self, undo: Branch, redo: Branch)
        ensures { self.new ≡ record self.old { undo = undo; redo = redo } }
    {
        self.is_trimmed = false;
        self.undo = undo;
        self.redo = redo;
    }

    fn replace(
        &mut self,
        alloc: Global,
        at: usize,
        foreign: Vec<StepMap>,
        kept: Vec<Item<C>>,
    ) -> Result<(), AllocError>
    where
        C: Drop,
        requires { at ≤ length self.old.items }
        ensures ok { OnOk result (self.new ≡ replaced self.old at foreign.items kept.items) }
        ensures err { OnErr result (self.new ≡ self.old) }
    {
        let mut kept = kept;
        let mut behind = foreign_items(alloc, foreign.as_slice())?;
        behind.append(&mut kept)?;
        let count = self.items.len() - at;
        self.is_trimmed = false;
        self.items.replace_last(count, Listed::from_vec(behind))
    }
}

/// Whether so many steps kept are looked for one by one sooner than all items are gone through: each is looked for among the names
/// of the last steps, so many as are kept.
fn are_few(kept: usize, items: usize) -> bool {
    kept.saturating_mul(kept) < items.saturating_mul(4)
}
