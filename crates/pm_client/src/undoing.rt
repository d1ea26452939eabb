//! Undoing and redoing events.
ghost use Rattle.std.specs.Prelude.{◌≡◌, ◌+◌, ◌↔◌, List, [], false, length, Err, Some, None, IfOk, IfErr, OnOk, OnErr, All};
ghost use Rattle.pm_authority.specs.declared.named.Named.{Named};
ghost use Rattle.pm_history.specs.declared.turn.Turn.TheVariants.{Undo, Redo, UndoEvent};
ghost use Rattle.pm_history.specs.Made.{IsMade};
ghost use Rattle.pm_history.specs.Turns.{any_numbered, event_for};
ghost use Rattle.pm_history.specs.Undos.{undo_event};
ghost use Rattle.pm_client.specs.declared.failing.UndoError.TheVariants.{NothingToUndo, NoMemory};
ghost use Rattle.pm_client.specs.Clients.{named, turned, turned_if, undone_last, redone_last, undone_event};
ghost use Rattle.pm_map.specs.Positions.{MayLead, IsItself};
ghost use Rattle.pm_client.specs.Cursors.{AreIn};
ghost use Rattle.pm_client.specs.Kins.{Kin, Stands};
ghost use Rattle.pm_client.specs.Rebases.{maps_of};
ghost use Rattle.pm_client.specs.Rebasables.{NamedHasMap};
ghost use Rattle.pm_client.specs.TokenNames.{KeepsTokens};
ghost use Rattle.pm_client.specs.Undoings.{GivesBack, TiesLast, TurnsOver};

use crate::client::Client;
use crate::cursors::move_all;
use crate::failing::UndoError;
use crate::naming::name_steps;
use crate::rebasing::maps_over;
use pm_authority::Name;
use pm_change::Change;
use pm_history::{Event, Turn, Undone, names_in, undo_event};
use std::alloc::{AllocError, Global};

impl<C: Change> Client<C> {
    /// Undoes the last event that can be undone, and tells by how many steps. The event's steps that still stand in the
    /// timeline are gone through from the last to the first: each change of a step's stored inverse is carried over all later
    /// maps, where an own step that undoes another is its mirror, and what is lost or does not apply is left out. The steps
    /// made are pending under the next serials, each cursor goes through their maps by its side, and they are an event to
    /// redo, with the number of the event undone. No event is open then. `NothingToUndo` comes exactly where there is no
    /// event to undo. Then, and out of memory, the client is as it was, the open event included.
    ///
    /// An undo goes over the maps of the later steps where the history keeps them, and copies none. For each change that it
    /// carries, where one of these steps undid another and put tokens in, it makes a table of those that undid one.
    ///
    /// Under the rules that are lent the client must stand to a log. Each call keeps this.
    /// ProseMirror: `undo`.
    pub fn undo(&mut self, alloc: Global, rules: &C::Rules) -> Result<u64, UndoError>
        requires { Stands C.means rules.now self.old }
        ensures undone { IfOk result (λ n. undone_last C.means rules.now self.old ≡ Some (n, self.new)) }
        ensures nothing { (result ≡ Err NothingToUndo) ↔ (self.old.history.undo ≡ []) }
        ensures err { OnErr result (self.new ≡ self.old) }
        // To what log the client stood, it stands.
        ensures kin { (first : C.Doc) (log : List (Named C)) → Kin C.means rules.now first log self.old
            → Kin C.means rules.now first log self.new }
        // Where nothing has changed since the event, its earlier document is given back.
        ensures restores { OnOk result ((first : C.Doc) (log : List (Named C)) (kin : Kin C.means rules.now first log self.old)
            → GivesBack C.means rules.now Undo self.old first kin.timeline self.new.doc) }
        // It is the undo of the event over the client's whole timeline.
        ensures whole { IfOk result (λ n. (first : C.Doc) (log : List (Named C)) (kin : Kin C.means rules.now first log self.old)
            → TurnsOver C.means rules.now Undo self.old first kin.timeline n self.new) }
        // Its steps, the last ones of the client's timeline, are tied to those of the event.
        ensures tied { IfOk result (λ n. (first : C.Doc) (log : List (Named C)) (kin : Kin C.means rules.now first log self.new)
            → TiesLast Undo self.old n kin.timeline) }
        // A cursor with side `After` that stood before a token stands before it, where that is still there.
        ensures tokens { OnOk result ((first : C.Doc) (log : List (Named C)) → Kin C.means rules.now first log self.old
            → KeepsTokens C.means log self.old self.new (C.means.size self.old.base)) }
    {
        self.turn(alloc, rules, Turn::Undo)
    }

    /// Redoes the last event that was undone, as `undo` undoes one, with the events to undo and to redo exchanged. It costs the
    /// same.
    /// ProseMirror: `redo`.
    pub fn redo(&mut self, alloc: Global, rules: &C::Rules) -> Result<u64, UndoError>
        requires { Stands C.means rules.now self.old }
        ensures redone { IfOk result (λ n. redone_last C.means rules.now self.old ≡ Some (n, self.new)) }
        ensures nothing { (result ≡ Err NothingToUndo) ↔ (self.old.history.redo ≡ []) }
        ensures err { OnErr result (self.new ≡ self.old) }
        // To what log the client stood, it stands.
        ensures kin { (first : C.Doc) (log : List (Named C)) → Kin C.means rules.now first log self.old
            → Kin C.means rules.now first log self.new }
        // Where nothing has changed since the event, its earlier document is given back.
        ensures restores { OnOk result ((first : C.Doc) (log : List (Named C)) (kin : Kin C.means rules.now first log self.old)
            → GivesBack C.means rules.now Redo self.old first kin.timeline self.new.doc) }
        // It is the undo of the event over the client's whole timeline.
        ensures whole { IfOk result (λ n. (first : C.Doc) (log : List (Named C)) (kin : Kin C.means rules.now first log self.old)
            → TurnsOver C.means rules.now Redo self.old first kin.timeline n self.new) }
        // Its steps, the last ones of the client's timeline, are tied to those of the event.
        ensures tied { IfOk result (λ n. (first : C.Doc) (log : List (Named C)) (kin : Kin C.means rules.now first log self.new)
            → TiesLast Redo self.old n kin.timeline) }
        // A cursor with side `After` that stood before a token stands before it, where that is still there.
        ensures tokens { OnOk result ((first : C.Doc) (log : List (Named C)) → Kin C.means rules.now first log self.old
            → KeepsTokens C.means log self.old self.new (C.means.size self.old.base)) }
    {
        self.turn(alloc, rules, Turn::Redo)
    }

    /// Undoes the last event to undo that has this number, wherever it stands among the events to undo, as `undo` undoes the
    /// last one. The others stay. `NothingToUndo` comes exactly where no event to undo has the number. It costs what an undo
    /// does: it goes over the maps of the steps from the event's first one on.
    pub fn undo_event(
        &mut self,
        alloc: Global,
        rules: &C::Rules,
        number: u32,
    ) -> Result<u64, UndoError>
        requires { Stands C.means rules.now self.old }
        ensures undone { IfOk result (λ n. undone_event C.means rules.now self.old number ≡ Some (n, self.new)) }
        ensures nothing { (result ≡ Err NothingToUndo) ↔ (any_numbered number self.old.history.undo ≡ false) }
        ensures err { OnErr result (self.new ≡ self.old) }
        // To what log the client stood, it stands.
        ensures kin { (first : C.Doc) (log : List (Named C)) → Kin C.means rules.now first log self.old
            → Kin C.means rules.now first log self.new }
        // Where nothing has changed since the event, its earlier document is given back.
        ensures restores { OnOk result ((first : C.Doc) (log : List (Named C)) (kin : Kin C.means rules.now first log self.old)
            → GivesBack C.means rules.now (UndoEvent number) self.old first kin.timeline self.new.doc) }
        // It is the undo of the event over the client's whole timeline.
        ensures whole { IfOk result (λ n. (first : C.Doc) (log : List (Named C)) (kin : Kin C.means rules.now first log self.old)
            → TurnsOver C.means rules.now (UndoEvent number) self.old first kin.timeline n self.new) }
        // Its steps, the last ones of the client's timeline, are tied to those of the event.
        ensures tied { IfOk result (λ n. (first : C.Doc) (log : List (Named C)) (kin : Kin C.means rules.now first log self.new)
            → TiesLast (UndoEvent number) self.old n kin.timeline) }
        // A cursor with side `After` that stood before a token stands before it, where that is still there.
        ensures tokens { OnOk result ((first : C.Doc) (log : List (Named C)) → Kin C.means rules.now first log self.old
            → KeepsTokens C.means log self.old self.new (C.means.size self.old.base)) }
    {
        self.turn(alloc, rules, Turn::UndoEvent { number })
    }

    /// Undoes the event that is taken, or redoes it.
    fn turn(&mut self, alloc: Global, rules: &C::Rules, turn: Turn) -> Result<u64, UndoError>
        requires { Stands C.means rules.now self.old }
        ensures turned { IfOk result (λ n. turned_if C.means rules.now self.old turn (event_for turn self.old.history) ≡ Some (n, self.new)) }
        ensures nothing { (result ≡ Err NothingToUndo) ↔ (event_for turn self.old.history ≡ None) }
        ensures err { OnErr result (self.new ≡ self.old) }
    {
        let Some(event) = self.history.last(turn) else {
            return Err(UndoError::NothingToUndo);
        };
        let number = event.number;
        let made = self.made_of(alloc, rules, event.names.as_slice())?;
        self.take_turn(alloc, turn, number, made)
    }

    /// What undoing the steps of these names makes. It goes over the history from the first of these steps on, and over no step
    /// before it.
    fn made_of(
        &self,
        alloc: Global,
        rules: &C::Rules,
        names: &[Name],
    ) -> Result<Undone<C::Doc, C>, AllocError>
        requires { Stands C.means rules.now self.now }
        ensures made { IfOk result (λ w. w ≡ undo_event C.means rules.now self.now.name names.now self.now.history.items self.now.doc (self.now.serials + 1)) }
        ensures steps { IfOk result (IsMade C.means rules.now self.now.name self.now.doc (self.now.serials + 1)) }
    {
        let doc = C::copy_doc(alloc, &self.doc)?;
        let serial = self.serials.checked_add(1).ok_or(AllocError)?;
        let items = self.history.since(names);
        undo_event(alloc, rules, self.name, names, items, doc, serial)
    }

    /// The steps that undo the event were made. Out of memory, the client is as it was.
    fn take_turn(
        &mut self,
        alloc: Global,
        turn: Turn,
        number: Option<u32>,
        undone: Undone<C::Doc, C>,
    ) -> Result<u64, UndoError>
        requires maps { All (NamedHasMap C.means) (named self.old.name (self.old.serials + 1) undone.made) }
        requires room { MayLead AreIn IsItself self.old.cursors (maps_of C.means (named self.old.name (self.old.serials + 1) undone.made)) }
        requires serials { undone.serial ≡ self.old.serials + 1 + length undone.made }
        ensures count { IfOk result (λ n. n ≡ length undone.made) }
        ensures turned { OnOk result (self.new ≡ turned C.means self.old turn number undone) }
        ensures memory { IfErr result (λ e. e ≡ NoMemory) }
        ensures err { OnErr result (self.new ≡ self.old) }
    {
        let Undone {
            doc,
            serial,
            made,
            items,
        } = undone;
        let count = made.len() as u64;
        let added = name_steps(alloc, self.name, self.serials + 1, made.into_vec())?;
        let maps = maps_over(alloc, added.as_slice())?;
        let cursors = move_all(alloc, self.cursors.as_slice(), &maps)?;
        let event = Event {
            number,
            names: names_in(alloc, items.as_slice())?,
        };
        let before = self.pending.len();
        self.pending.append(added)?;
        if let Err(AllocError) = self.history.undone(turn, event, items) {
            self.pending.truncate(before);
            return Err(UndoError::NoMemory);
        }
        self.doc = doc;
        self.serials = serial - 1;
        self.cursors = cursors;
        Ok(count)
    }
}
