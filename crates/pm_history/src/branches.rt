//! The timeline's items and the two branches of events.
ghost use Rattle.std.specs.Prelude.{◌≡◌, IsTrue};
ghost use Rattle.pm_history.specs.Histories.{new_history};
ghost use Rattle.pm_history.specs.Live.{IsTableOfNames};
ghost use Rattle.pm_history.specs.Remembers.{live_names};
ghost use Rattle.pm_history.specs.Trims.{trimmed, IsTrimmed};

mod looking;
mod rebasing;
pub mod recording;
mod turning;

use crate::branch::{Branch, Event};
use crate::item::Item;
use crate::live::Live;
use crate::trimming::trim;
use pm_change::Name;
use pm_list::Listed;
use std::alloc::Global;
use std::marker::Model;
use std::mem;

/// The call that made a step. `event`: the number of the event. `first`: whether it is the first step of its call.
#[derive(Clone, Copy, Drop, Debug)]
pub enum MadeBy {
    Edit { event: Option<u32>, first: bool },
    Undo { event: Option<u32>, first: bool },
    Redo { event: Option<u32>, first: bool },
}

/// A client's history: items for the timeline's last steps, the events that can be undone and those that can be redone,
/// oldest first, and whether the last event to undo is open. A step is live where its name stands in an event. What no undo
/// looks at is dropped: the items before the first live step, and the changes that undo steps that are not live.
///
/// `is_trimmed`: it is known that nothing is left to drop. Then a call that makes no step leave an event looks at its own
/// steps alone, and else at each item and each live name once. So a history is gone through at most once for each undo, each
/// redo, each dropped step, and each rebase of about as many steps as the root of its length or more.
/// ProseMirror: `HistoryState`.
#[derive(Drop)]
pub struct Branches<C> {
    items: Listed<Item<C>>,
    undo: Branch,
    redo: Branch,
    is_open: bool,
    is_trimmed: bool,
}

impl<C> Model for Branches<C> {
    ghost use Rattle.std.specs.Prelude.{◌≡◌, true};
    ghost use Rattle.pm_history.specs.Recorded.{History};

    ghost Value = { History C };

    ghost use Rattle.pm_history.specs.Trims.{IsTrimmed};

    ghost view = { λ b. record { items = b.items; undo = b.undo; redo = b.redo; is_open = b.is_open } };

    ghost invariant = { λ b. b.is_trimmed ≡ true → IsTrimmed (record { items = b.items; undo = b.undo; redo = b.redo; is_open = b.is_open }) };
}

impl<C> Branches<C> {
    /// The history of a client that has no step yet. It takes no memory until a step comes.
    pub fn new(alloc: Global) -> Branches<C>
        ensures { result ≡ new_history }
    {
        Branches {
            items: Listed::new(alloc),
            undo: Branch::new(alloc),
            redo: Branch::new(alloc),
            is_open: false,
            is_trimmed: true,
        }
    }

    /// The items that are kept of the timeline, in order.
    pub fn items(&self) -> &[Item<C>]
        ensures { result.now ≡ self.now.items }
    {
        self.items.as_slice()
    }

    /// The events that can be undone, oldest first.
    /// ProseMirror: `undoDepth` is their number.
    pub fn undo_events(&self) -> &[Event]
        ensures { result.now ≡ self.now.undo }
    {
        self.undo.events()
    }

    /// The events that can be redone, oldest first.
    /// ProseMirror: `redoDepth` is their number.
    pub fn redo_events(&self) -> &[Event]
        ensures { result.now ≡ self.now.redo }
    {
        self.redo.events()
    }

    /// Whether it is known that nothing is left to drop.
    pub(crate) fn is_settled(&self) -> bool
        ensures { IsTrue result → IsTrimmed self.now }
    {
        self.is_trimmed
    }

    /// From now on it is known that nothing is left to drop.
    pub(crate) fn settle(&mut self)
        requires { IsTrimmed self.old }
        ensures { self.new ≡ self.old }
    {
        self.is_trimmed = true;
    }

    /// Lets all items before the first live step go, or all where there is none, and the changes that undo steps that are not
    /// live. `names` are the live names, and `live` is their table. It takes no memory.
    pub(crate) fn trim(&mut self, alloc: Global, names: &[Name], live: &Live)
    where
        C: Drop,
        requires names { names.now ≡ live_names self.old }
        requires table { IsTableOfNames live.now names.now }
        ensures { self.new ≡ trimmed self.old }
    {
        self.trim_items(alloc, names, live);
        self.settle();
    }

    fn trim_items(&mut self, alloc: Global, names: &[Name], live: &Live)
    where
        C: Drop,
        requires names { names.now ≡ live_names self.old }
        requires table { IsTableOfNames live.now names.now }
        ensures { self.new ≡ trimmed self.old }
    {
        self.is_trimmed = false;
        let items = mem::replace(&mut self.items, Listed::new(alloc));
        self.items = trim(alloc, items, names, live);
    }
}
