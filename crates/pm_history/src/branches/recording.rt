//! Steps that are after the timeline, and the events in which they stand.
ghost use Rattle.std.specs.Prelude.{◌≡◌, [], IsTrue, IfOk, OnOk, OnErr};
ghost use Rattle.pm_history.specs.declared.branches.MadeBy.TheVariants.{Edit};
ghost use Rattle.pm_history.specs.Histories.{noted, opens, recorded_where, noted_all, noted_own, names_in};
ghost use Rattle.pm_history.specs.Trims.{trimmed, trimmed_after, IsTrimmed, are_own, live_after};

use crate::branches::{Branches, MadeBy};
use crate::item::Item;
use crate::live::{Live, live_names, put_names, put_names_of};
use crate::trimming::are_own;
use pm_change::Name;
use pm_list::Listed;
use pm_map::StepMap;
use std::alloc::{AllocError, Global};

impl<C> Branches<C> {
    /// A foreign step with this map is after the timeline. Then the history is trimmed: all items before the first live step
    /// are dropped, or all where there is none, and the changes that undo steps that are not live. The other items keep their
    /// names and maps, and what they were made to undo. Out of memory, nothing changes.
    pub fn note(&mut self, alloc: Global, map: StepMap) -> Result<(), AllocError>
    where
        C: Drop,
        ensures ok { OnOk result (self.new ≡ trimmed (noted self.old map)) }
        ensures err { OnErr result (self.new ≡ self.old) }
    {
        if self.is_settled() {
            return self.note_settled(alloc, map);
        }
        let names = live_names(alloc, self.undo.events(), self.redo.events())?;
        let live = Live::of(alloc, names.as_slice())?;
        self.put_foreign(alloc, map)?;
        self.trim(alloc, names.as_slice(), &live);
        Ok(())
    }

    /// A foreign step is after a timeline of which nothing is left to drop. Where no step is live, it is dropped at once.
    fn note_settled(&mut self, alloc: Global, map: StepMap) -> Result<(), AllocError>
    where
        C: Drop,
        requires { IsTrimmed self.old }
        ensures ok { OnOk result (self.new ≡ trimmed (noted self.old map)) }
        ensures err { OnErr result (self.new ≡ self.old) }
    {
        if self.items().is_empty() {
            return Ok(());
        }
        self.put_foreign(alloc, map)?;
        self.settle();
        Ok(())
    }

    fn put_foreign(&mut self, alloc: Global, map: StepMap) -> Result<(), AllocError>
    where
        C: Drop,
        ensures ok { OnOk result (self.new ≡ noted self.old map) }
        ensures err { OnErr result (self.new ≡ self.old) }
    {
        self.is_trimmed = false;
        self.items.push(Item::foreign(alloc, map)?)
    }

    /// An own step, made by the call `made_by`, is after the timeline. A step of an edit joins the open event where the edit
    /// has that event's number, as do all further steps of the same call; else it opens a new event. It empties the redo
    /// branch, and then the history is trimmed as by `note`. A step of an undo stands in an event to redo, one of a redo in
    /// an event to undo; these do not trim. Out of memory, nothing changes.
    pub fn note_own(
        &mut self,
        alloc: Global,
        item: Item<C>,
        made_by: MadeBy,
    ) -> Result<(), AllocError>
    where
        C: Drop,
        ensures ok { OnOk result (self.new ≡ trimmed_after made_by (noted_own self.old item made_by)) }
        ensures err { OnErr result (self.new ≡ self.old) }
    {
        let mut items = Listed::new(alloc);
        items.push(item)?;
        self.note_all(alloc, items, made_by)
    }

    /// Own steps, made in this order by the one call `made_by`, are after the timeline, all as `note_own` notes one. For
    /// want of memory nothing changes.
    pub fn note_all(
        &mut self,
        alloc: Global,
        items: Listed<Item<C>>,
        made_by: MadeBy,
    ) -> Result<(), AllocError>
    where
        C: Drop,
        ensures ok { OnOk result (self.new ≡ trimmed_after made_by (noted_all self.old items made_by)) }
        ensures err { OnErr result (self.new ≡ self.old) }
    {
        match made_by {
            MadeBy::Edit { event, first } => self.note_edit(alloc, items, event, first),
            MadeBy::Undo { event, first } => {
                self.put_all(alloc, items, MadeBy::Undo { event, first })
            }
            MadeBy::Redo { event, first } => {
                self.put_all(alloc, items, MadeBy::Redo { event, first })
            }
        }
    }

    /// Steps of an edit are after the timeline. Where nothing was left to drop, nothing could be redone, and each step is an
    /// own one, nothing is left to drop after them either.
    fn note_edit(
        &mut self,
        alloc: Global,
        items: Listed<Item<C>>,
        event: Option<u32>,
        first: bool,
    ) -> Result<(), AllocError>
    where
        C: Drop,
        ensures ok { OnOk result (self.new ≡ trimmed (noted_all self.old items (Edit event first))) }
        ensures err { OnErr result (self.new ≡ self.old) }
    {
        if self.is_settled() && self.redo_events().is_empty() && are_own(items.as_slice()) {
            return self.edit_settled(alloc, items, event, first);
        }
        let names = self.live_after(alloc, items.as_slice())?;
        let live = Live::of(alloc, names.as_slice())?;
        self.put_all(alloc, items, MadeBy::Edit { event, first })?;
        self.trim(alloc, names.as_slice(), &live);
        Ok(())
    }

    fn edit_settled(
        &mut self,
        alloc: Global,
        items: Listed<Item<C>>,
        event: Option<u32>,
        first: bool,
    ) -> Result<(), AllocError>
    where
        C: Drop,
        requires trimmed { IsTrimmed self.old }
        requires redo { self.old.redo ≡ [] }
        requires own { IsTrue (are_own items) }
        ensures ok { OnOk result (self.new ≡ trimmed (noted_all self.old items (Edit event first))) }
        ensures err { OnErr result (self.new ≡ self.old) }
    {
        self.put_all(alloc, items, MadeBy::Edit { event, first })?;
        self.settle();
        Ok(())
    }

    /// The live names after an edit of these steps. Where it has an own step, nothing can be redone then.
    fn live_after(&self, alloc: Global, items: &[Item<C>]) -> Result<Listed<Name>, AllocError>
        ensures { IfOk result (λ ns. ns ≡ live_after self.now items.now) }
    {
        let more = names_in(alloc, items)?;
        if more.is_empty() {
            return live_names(alloc, self.undo.events(), self.redo.events());
        }
        let mut names = Listed::new(alloc);
        put_names_of(&mut names, self.undo.events())?;
        put_names(&mut names, more.as_slice())?;
        Ok(names)
    }

    /// Own steps of one call are after the timeline, and nothing is dropped.
    fn put_all(
        &mut self,
        alloc: Global,
        items: Listed<Item<C>>,
        made_by: MadeBy,
    ) -> Result<(), AllocError>
    where
        C: Drop,
        ensures ok { OnOk result (self.new ≡ noted_all self.old items made_by) }
        ensures err { OnErr result (self.new ≡ self.old) }
    {
        let names = names_in(alloc, items.as_slice())?;
        let count = self.items.len();
        self.is_trimmed = false;
        self.items.append(items)?;
        match self.record(names, made_by) {
            Ok(()) => Ok(()),
            Err(AllocError) => {
                self.is_trimmed = false;
                self.items.truncate(count);
                Err(AllocError)
            }
        }
    }

    fn record(&mut self, names: Listed<Name>, made_by: MadeBy) -> Result<(), AllocError>
        ensures ok { OnOk result (self.new ≡ recorded_where self.old names made_by) }
        ensures err { OnErr result (self.new ≡ self.old) }
    {
        if names.is_empty() {
            return Ok(());
        }
        match made_by {
            MadeBy::Edit { event, first } => {
                let opens = self.opens(event, first);
                self.is_trimmed = false;
                self.undo.put(opens, event, names)?;
                self.redo.clear();
                self.is_open = true;
                Ok(())
            }
            MadeBy::Undo { event, first } => {
                self.is_trimmed = false;
                self.redo.put(first, event, names)?;
                self.is_open = false;
                Ok(())
            }
            MadeBy::Redo { event, first } => {
                self.is_trimmed = false;
                self.undo.put(first, event, names)?;
                self.is_open = false;
                Ok(())
            }
        }
    }

    fn opens(&self, event: Option<u32>, first: bool) -> bool
        ensures { result ≡ opens self.now event first }
    {
        let joins = match (event, self.undo.last_number()) {
            (Some(k), Some(j)) => k == j,
            _ => false,
        };
        first && !(self.is_open && joins)
    }
}

/// The names of these items, in order. A foreign step has none.
pub fn names_in<C>(alloc: Global, items: &[Item<C>]) -> Result<Listed<Name>, AllocError>
    ensures { IfOk result (λ ns. ns ≡ names_in items.now) }
{
    let mut names = Listed::new(alloc);
    for item in items {
        if let Some(name) = item.name() {
            names.push(name)?;
        }
    }
    Ok(names)
}
