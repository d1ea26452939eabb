//! Events one after another.
ghost use Rattle.std.specs.Prelude.{◌≡◌, ◌<◌, ◌↔◌, [], ◌∷◌, ◌++◌, length, IsTrue, IsSome, IfSome, Some, OnOk, OnErr};
ghost use Rattle.pm_list.specs.Ends.{OnLast};
ghost use Rattle.pm_history.specs.Histories.{put_event, extended, last_number, last_event, with_event, without_last};
ghost use Rattle.pm_history.specs.Turns.{has_number, any_numbered, last_numbered, without_numbered, IsPlaceOf, HaveLostNumbered};

use pm_change::Name;
use pm_list::Listed;
use std::alloc::{AllocError, Global};
use std::marker::Model;

/// An event: the steps that are undone together. `number`: the number that its edits gave, if any. `names`: the names of its
/// steps, in order.
/// ProseMirror: `newGroupDelay` and `closeHistory` decide what is one event. Here the numbers of edits decide it.
#[derive(Drop)]
pub struct Event {
    pub number: Option<u32>,
    pub names: Listed<Name>,
}

/// Events, oldest first, seen as their list.
/// ProseMirror: `Branch`.
#[derive(Drop)]
pub struct Branch {
    events: Vec<Event>,
}

impl Model for Branch {
    ghost use Rattle.std.specs.Prelude.{List};
    ghost use Rattle.pm_history.specs.declared.branch.Event.{Event};

    ghost Value = { List Event };

    ghost view = { λ b. b.events.items };
}

impl Branch {
    /// No event. It takes no memory until one comes.
    pub(crate) fn new(alloc: Global) -> Branch
        ensures { result ≡ [] }
    {
        Branch {
            events: Vec::new(alloc),
        }
    }

    /// These events, in their order. It takes no memory.
    pub(crate) fn from_vec(events: Vec<Event>) -> Branch
        ensures { result ≡ events.items }
    {
        Branch { events }
    }

    /// The events, oldest first.
    pub fn events(&self) -> &[Event]
        ensures { result.now ≡ self.now }
    {
        self.events.as_slice()
    }

    /// The number of the last event; None where it has none or there is no event.
    pub(crate) fn last_number(&self) -> Option<u32>
        ensures { result ≡ last_number self.now }
    {
        match self.events.len().checked_sub(1) {
            Some(last) => self.events[last].number,
            None => None,
        }
    }

    /// The last event; None where there is none.
    pub(crate) fn last(&self) -> Option<&Event>
        ensures none { IsSome result ↔ IsSome (last_event self.now) }
        ensures value { IfSome result (λ e. last_event self.now ≡ Some e.now) }
    {
        match self.events.len().checked_sub(1) {
            Some(last) => Some(&self.events[last]),
            None => None,
        }
    }

    /// Steps that open an event, or join the last one. Out of memory, the branch stays as it was.
    pub(crate) fn put(
        &mut self,
        opens: bool,
        number: Option<u32>,
        names: Listed<Name>,
    ) -> Result<(), AllocError>
        ensures ok { OnOk result (self.new ≡ put_event opens number self.old names) }
        ensures err { OnErr result (self.new ≡ self.old) }
    {
        if opens || self.events.is_empty() {
            self.events.push(Event { number, names })?;
            Ok(())
        } else {
            self.extend(names)
        }
    }

    fn extend(&mut self, names: Listed<Name>) -> Result<(), AllocError>
        requires { 0 < length self.old }
        ensures ok { OnOk result (self.new ≡ extended self.old names) }
        ensures err { OnErr result (self.new ≡ self.old) }
    {
        let last = self.events.len() - 1;
        self.events[last].names.append(names)
    }

    /// An event more, unless it has no step. Out of memory, the branch stays as it was.
    pub(crate) fn add(&mut self, event: Event) -> Result<(), AllocError>
        ensures ok { OnOk result (self.new ≡ with_event self.old event) }
        ensures err { OnErr result (self.new ≡ self.old) }
    {
        if event.names.is_empty() {
            return Ok(());
        }
        self.events.push(event)?;
        Ok(())
    }

    /// Takes the last event out; None where there is none. It takes no memory.
    pub(crate) fn pop(&mut self) -> Option<Event>
        ensures { OnLast self.old result self.new }
    {
        self.events.pop()
    }

    /// Lets the last event go, where there is one.
    pub(crate) fn drop_last(&mut self)
        ensures { self.new ≡ without_last self.old }
    {
        let kept = self.events.len().saturating_sub(1);
        self.events.truncate(kept);
    }

    /// The last event that has this number; None where none has it.
    pub(crate) fn numbered(&self, number: u32) -> Option<&Event>
        ensures none { IsSome result ↔ IsTrue (any_numbered number self.now) }
        ensures value { IfSome result (λ e. last_numbered number self.now ≡ Some e.now) }
    {
        match place_of(self.events.as_slice(), number) {
            Some(place) => Some(&self.events[place]),
            None => None,
        }
    }

    /// Takes that event out; None where there is none. It takes no memory.
    pub(crate) fn take_numbered(&mut self, number: u32) -> Option<Event>
        ensures { HaveLostNumbered number self.old result self.new }
    {
        match place_of(self.events.as_slice(), number) {
            Some(place) => Some(self.events.remove(place)),
            None => None,
        }
    }

    /// Lets that event go, where there is one.
    pub(crate) fn drop_numbered(&mut self, number: u32)
        ensures { self.new ≡ without_numbered number self.old }
    {
        let _ = self.take_numbered(number);
    }

    /// Lets all events go.
    pub(crate) fn clear(&mut self)
        ensures { self.new ≡ [] }
    {
        self.events.clear();
    }
}

/// The place of the last event that has this number; None where none has it.
fn place_of(events: &[Event], number: u32) -> Option<usize>
    ensures { IsPlaceOf number events.now result }
{
    let mut i = events.len();
    while i > 0 {
        i -= 1;
        if has_number(&events[i], number) {
            return Some(i);
        }
    }
    None
}

/// Whether the event has this number.
fn has_number(event: &Event, number: u32) -> bool
    ensures { result ≡ has_number number event.now }
{
    match event.number {
        Some(own) => number == own,
        None => false,
    }
}
