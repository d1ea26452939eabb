//! Events that are undone and redone.
ghost use Rattle.std.specs.Prelude.{◌≡◌, ◌↔◌, Some, IsTrue, IsSome, IfSome, OnOk, OnErr};
ghost use Rattle.pm_history.specs.declared.turn.Turn.TheVariants.{Undo, Redo, UndoEvent};
ghost use Rattle.pm_history.specs.Turns.{any_numbered, last_numbered, event_for, IsPopped, turned, undone};

use crate::branch::Event;
use crate::branches::Branches;
use crate::item::Item;
use crate::turn::Turn;
use pm_list::Listed;
use std::alloc::AllocError;

impl<C> Branches<C> {
    /// The event that is taken: the last one to undo, or to redo, or the last one to undo that has the number. None exactly
    /// where there is no such event.
    pub fn last(&self, turn: Turn) -> Option<&Event>
        ensures none { IsSome result ↔ IsSome (event_for turn self.now) }
        ensures value { IfSome result (λ e. event_for turn self.now ≡ Some e.now) }
    {
        match turn {
            Turn::Undo => self.undo.last(),
            Turn::Redo => self.redo.last(),
            Turn::UndoEvent { number } => self.event_numbered(number),
        }
    }

    /// The last event to undo that has this number. None exactly where none has it. It takes no memory.
    pub fn event_numbered(&self, number: u32) -> Option<&Event>
        ensures none { IsSome result ↔ IsTrue (any_numbered number self.now.undo) }
        ensures value { IfSome result (λ e. last_numbered number self.now.undo ≡ Some e.now) }
    {
        self.undo.numbered(number)
    }

    /// Takes that event out of its branch, and closes the open event. None exactly where there is no such event, and then
    /// nothing changes. It takes no memory.
    pub fn pop(&mut self, turn: Turn) -> Option<Event>
        ensures { IsPopped turn self.old result self.new }
    {
        match turn {
            Turn::Undo => self.pop_undo(),
            Turn::Redo => self.pop_redo(),
            Turn::UndoEvent { number } => self.pop_event(number),
        }
    }

    fn pop_undo(&mut self) -> Option<Event>
        ensures { IsPopped Undo self.old result self.new }
    {
        self.is_trimmed = false;
        let popped = self.undo.pop();
        if popped.is_some() {
            self.is_open = false;
        }
        popped
    }

    fn pop_redo(&mut self) -> Option<Event>
        ensures { IsPopped Redo self.old result self.new }
    {
        self.is_trimmed = false;
        let popped = self.redo.pop();
        if popped.is_some() {
            self.is_open = false;
        }
        popped
    }

    /// Takes the last event to undo that has this number out of its branch, and closes the open event. None exactly where none
    /// has it, and then nothing changes, the open event included. It takes no memory.
    pub fn pop_event(&mut self, number: u32) -> Option<Event>
        ensures { IsPopped (UndoEvent number) self.old result self.new }
    {
        self.is_trimmed = false;
        let popped = self.undo.take_numbered(number);
        if popped.is_some() {
            self.is_open = false;
        }
        popped
    }

    /// The event that is taken was undone, or redone: it leaves its branch, `items` are after the timeline, and `made`,
    /// unless it has no step, is an event of the other branch. No event is open then. Out of memory, nothing changes.
    pub fn undone(
        &mut self,
        turn: Turn,
        made: Event,
        items: Listed<Item<C>>,
    ) -> Result<(), AllocError>
    where
        C: Drop,
        ensures ok { OnOk result (self.new ≡ undone turn self.old made items) }
        ensures err { OnErr result (self.new ≡ self.old) }
    {
        let count = self.items.len();
        self.is_trimmed = false;
        self.items.append(items)?;
        match self.pass_over(turn, made) {
            Ok(()) => Ok(()),
            Err(AllocError) => {
                self.is_trimmed = false;
                self.items.truncate(count);
                Err(AllocError)
            }
        }
    }

    fn pass_over(&mut self, turn: Turn, made: Event) -> Result<(), AllocError>
        ensures ok { OnOk result (self.new ≡ turned turn self.old made) }
        ensures err { OnErr result (self.new ≡ self.old) }
    {
        self.is_trimmed = false;
        match turn {
            Turn::Undo => {
                self.redo.add(made)?;
                self.undo.drop_last();
                self.is_open = false;
                Ok(())
            }
            Turn::Redo => {
                self.undo.add(made)?;
                self.redo.drop_last();
                self.is_open = false;
                Ok(())
            }
            Turn::UndoEvent { number } => {
                self.redo.add(made)?;
                self.undo.drop_numbered(number);
                self.is_open = false;
                Ok(())
            }
        }
    }
}
