//! Which steps are live: those whose names stand in an event.
ghost use Rattle.std.specs.Prelude.{◌≡◌, ◌==◌, ◌<◌, ◌%◌, ◌∷◌, ◌++◌, ℕ, [], length, nat_eq, slice_set, if◌then◌else◌, Some, IfOk, OnOk};
ghost use Rattle.std.specs.HashMap.{get};
ghost use Rattle.pm_history.specs.Live.{IsTableOfNames, client_at, client_of, has_room, there};
ghost use Rattle.pm_history.specs.Starts.{is_named};
ghost use Rattle.pm_history.specs.Remembers.{names_of};

use crate::branch::Event;
use crate::undoers::remainder;
use crate::undoing::is_named;
use pm_change::Name;
use pm_list::Listed;
use std::alloc::{AllocError, Global};
use std::collections::HashMap;

/// Names, found by their serials. `near`: for each remainder that a serial can leave the name with the serial that was put first for
/// it. `far`: for each other serial the client of the first name that has it. A client's serials follow one another, so that with
/// twice as many remainders as names few share one, and what is near is found without hashing.
#[derive(Drop)]
pub struct Live {
    pub near: Vec<Option<Name>>,
    pub far: HashMap<u64, u32>,
}

impl Live {
    /// The table of no name, with room for so many.
    fn new(alloc: Global, names: &[Name], room: usize) -> Result<Live, AllocError>
        requires { names.now ≡ [] }
        ensures { IfOk result (λ t. IsTableOfNames t names.now) }
    {
        let _ = names;
        let count = room.saturating_add(room).max(1);
        Ok(Live {
            near: vec![in alloc; None; count]?,
            far: HashMap::new(alloc),
        })
    }

    /// Puts a name before `behind`, whose table this is.
    fn put(&mut self, name: &Name, behind: &[Name]) -> Result<(), AllocError>
        requires { IsTableOfNames self.old behind.now }
        ensures { OnOk result (IsTableOfNames self.new (name.now ∷ behind.now)) }
    {
        let _ = behind;
        if has_room(self.there(name.serial), name.serial) {
            self.put_near(*name);
            return Ok(());
        }
        self.put_far(*name)?;
        Ok(())
    }

    /// Puts a name where its serial leads.
    fn put_near(&mut self, name: Name)
        requires { 0 < length self.old.near.items }
        ensures near { self.new.near.items ≡ slice_set self.old.near.items (name.serial % length self.old.near.items) (Some name) }
        ensures far { self.new.far ≡ self.old.far }
    {
        let place = remainder(name.serial, self.near.len());
        self.near[place] = Some(name);
    }

    /// Puts a name elsewhere.
    fn put_far(&mut self, name: Name) -> Result<(), AllocError>
        ensures near { OnOk result (self.new.near ≡ self.old.near) }
        ensures far { OnOk result ((s : ℕ) → get nat_eq self.new.far s ≡ (if name.serial == s then Some name.client else get nat_eq self.old.far s)) }
    {
        self.far.insert(name.serial, name.client)?;
        Ok(())
    }

    /// The table of these names.
    pub fn of(alloc: Global, names: &[Name]) -> Result<Live, AllocError>
        ensures { IfOk result (λ t. IsTableOfNames t names.now) }
    {
        let mut live = Live::new(alloc, &names[names.len()..], names.len())?;
        let mut i = names.len();
        while i > 0 {
            let behind = &names[i..];
            i -= 1;
            live.put(&names[i], behind)?;
        }
        Ok(live)
    }

    /// Whether this is one of the names whose table this is. Where all are of one client, it is found at once.
    #[tactic(auto, using(crate::proofs::Trimmings::named_none))]
    pub fn has(&self, names: &[Name], name: Option<Name>) -> bool
        requires { IsTableOfNames self.now names.now }
        ensures { result ≡ is_named names.now name }
    {
        match name {
            Some(n) => is_found(self.client_at(names, n.serial), names, n),
            None => false,
        }
    }

    /// The client of the first of these names with this serial.
    fn client_at(&self, names: &[Name], serial: u64) -> Option<u32>
        requires { IsTableOfNames self.now names.now }
        ensures { result ≡ client_of serial names.now }
    {
        let _ = names;
        self.client_in(self.there(serial), serial)
    }

    /// The client of this name where it has the serial, or else that which is told elsewhere.
    fn client_in(&self, there: Option<Name>, serial: u64) -> Option<u32>
        ensures { result ≡ client_at there serial (get nat_eq self.now.far serial) }
    {
        match there {
            Some(name) => {
                if name.serial == serial {
                    Some(name.client)
                } else {
                    self.far.get(&serial).copied()
                }
            }
            None => self.far.get(&serial).copied(),
        }
    }

    /// The name that stands where this serial leads.
    fn there(&self, serial: u64) -> Option<Name>
        requires { 0 < length self.now.near.items }
        ensures { result ≡ there self.now serial }
    {
        self.near[remainder(serial, self.near.len())]
    }
}

/// Whether a name with this serial may stand where this one does.
fn has_room(there: Option<Name>, serial: u64) -> bool
    ensures { result ≡ has_room there serial }
{
    match there {
        Some(name) => name.serial == serial,
        None => true,
    }
}

/// Whether this is one of these names, the first of which with its serial is of this client.
#[tactic(auto, using(crate::proofs::Trimmings::named_absent, crate::proofs::Trimmings::named_present))]
fn is_found(client: Option<u32>, names: &[Name], name: Name) -> bool
    requires { client ≡ client_of name.serial names.now }
    ensures { result ≡ is_named names.now (Some name) }
{
    match client {
        Some(first) => first == name.client || is_named(names, Some(name)),
        None => false,
    }
}

/// The live names: those of the steps of these events.
pub fn live_names(alloc: Global, undo: &[Event], redo: &[Event]) -> Result<Listed<Name>, AllocError>
    ensures { IfOk result (λ ns. ns ≡ names_of undo.now ++ names_of redo.now) }
{
    let mut names = Listed::new(alloc);
    put_names_of(&mut names, undo)?;
    put_names_of(&mut names, redo)?;
    Ok(names)
}

/// Puts the names of the steps of these events after.
pub fn put_names_of(names: &mut Listed<Name>, events: &[Event]) -> Result<(), AllocError>
    ensures { OnOk result (names.new ≡ names.old ++ names_of events.now) }
{
    for event in events {
        put_names(names, event.names.as_slice())?;
    }
    Ok(())
}

/// Puts these names after.
pub fn put_names(names: &mut Listed<Name>, more: &[Name]) -> Result<(), AllocError>
    ensures { OnOk result (names.new ≡ names.old ++ more.now) }
{
    for name in more {
        names.push(*name)?;
    }
    Ok(())
}

/// Whether the step of this name is live. The events' names are looked at, from the last event on.
#[tactic(auto, using(crate::proofs::Trimmings::named_early, crate::proofs::Trimmings::named_late))]
pub fn is_live(undo: &[Event], redo: &[Event], name: Option<Name>) -> bool
    ensures { result ≡ is_named (names_of undo.now ++ names_of redo.now) name }
{
    is_named_in(redo, name) || is_named_in(undo, name)
}

/// Whether one of these events has the step of this name. The last one is looked at first.
fn is_named_in(events: &[Event], name: Option<Name>) -> bool
    ensures { result ≡ is_named (names_of events.now) name }
{
    let mut i = events.len();
    while i > 0 {
        i -= 1;
        if is_named(events[i].names.as_slice(), name) {
            return true;
        }
    }
    false
}
