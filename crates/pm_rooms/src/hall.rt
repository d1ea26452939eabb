//! Rooms side by side, each with rules of its own.
ghost use Rattle.std.specs.Prelude.{◌≡◌, ◌<◌, ℕ, length, slice_get, vec_len, Some, IfOk, OnOk, OnErr};
ghost use Rattle.pm_rooms.specs.Lines.{lines_in, outcomes_in};
ghost use Rattle.pm_rooms.specs.Halls.{hall_of, HallIsSound, SuitsHall, LinesSuitHall, OfRoom, EachRoom, OthersStay, RoomsStay, LeftInHall, LeftSettling};
ghost use Rattle.pm_session.specs.Events.{state_of, played};
ghost use Rattle.pm_session.specs.Left.{LeftByLine};
ghost use Rattle.pm_session.specs.Refusals.{EditorGetsNoRefusal, NoEditorRefused};
ghost use Rattle.pm_session.specs.Restoring.{Restores};
ghost use Rattle.pm_session.specs.Sessions.{session, settled};
ghost use Rattle.pm_session.specs.Sounds.{AllCaughtUp};
ghost use Rattle.pm_session.specs.Standing.{CursorsStay};

use crate::line::RoomLine;
use pm_change::Change;
use pm_session::{Maker, Outcome, Room};
use std::alloc::{AllocError, Global};

/// Rooms, each with its rules, room r at place r.
#[derive(Drop)]
pub struct Hall<C: Change>
where
    C::Rules: Drop,
{
    rules: Vec<C::Rules>,
    rooms: Vec<Room<C>>,
}

impl<C: Change> Hall<C>
where
    C::Rules: Drop,
{
    /// A hall of these rooms. The rules at place r are room r's, so that there are as many.
    pub fn new(rules: Vec<C::Rules>, rooms: Vec<Room<C>>) -> Hall<C>
        requires { vec_len rules ≡ vec_len rooms }
        ensures rules { result.rules ≡ rules }
        ensures rooms { result.rooms ≡ rooms }
    {
        Hall { rules, rooms }
    }

    /// Room r, which must be there.
    pub fn room(&self, r: u32) -> &Room<C>
        requires { r < vec_len self.now.rooms }
        ensures room { slice_get self.now.rooms.items r ≡ Some result.now }
        ensures state { slice_get (hall_of self.now).rooms r ≡ Some (state_of result.now) }
    {
        &self.rooms[r as usize]
    }

    /// Plays a line in its room, as `Room::play` says. The room must be there, and the line must suit it. All other rooms
    /// stay as they are. Running out of memory leaves the line's room as `Room::play` says.
    pub fn play<K: Maker<C>>(
        &mut self,
        alloc: Global,
        maker: &K,
        line: &RoomLine<K::Op, C>,
    ) -> Result<Outcome<C>, AllocError>
        requires sound { HallIsSound C.means (hall_of self.old) }
        requires suits { SuitsHall (hall_of self.old) line.now }
        ensures others { OthersStay line.now.room (hall_of self.old) (hall_of self.new) }
        ensures plays { IfOk result (λ o. OfRoom line.now.room (hall_of self.old) (hall_of self.new)
            (λ rules s t. (o, t) ≡ played C.means rules (K.makes maker.now rules) s line.now.line)) }
        // No message of an editor is refused for a step, whatever raw clients forge.
        ensures unrefused { IfOk result (λ o. EditorGetsNoRefusal line.now.line.act o) }
        ensures left { OnErr result (OfRoom line.now.room (hall_of self.old) (hall_of self.new) (λ rules s t. LeftByLine C.means rules s line.now.line t)) }
        ensures sound { HallIsSound C.means (hall_of self.new) }
        // Each cursor with side `After` stays before its token.
        ensures cursors { OfRoom line.now.room (hall_of self.old) (hall_of self.new) (λ rules s t. CursorsStay C.means s t) }
        // An undo or a redo, also of a numbered event, with nothing changed since gives the earlier document back.
        ensures restores { OnOk result (OfRoom line.now.room (hall_of self.old) (hall_of self.new) (λ rules s t. Restores C.means rules s line.now.line t)) }
    {
        let r = line.room as usize;
        let rules = &self.rules[r];
        let room = &mut self.rooms[r];
        room.play(alloc, rules, maker, &line.line)
    }

    /// Plays lines in order, each in its room, and tells what became of each. Each line's room must be there, and each room's
    /// own lines must suit it. A room is then what its own lines alone, in their order, make of it, and so are the outcomes
    /// of its lines: the lines of other rooms change nothing of it. Running out of memory leaves each room after its own of
    /// the lines that were played; the room of the next line may be left as `Room::play` says.
    pub fn play_all<K: Maker<C>>(
        &mut self,
        alloc: Global,
        maker: &K,
        lines: &[RoomLine<K::Op, C>],
    ) -> Result<Vec<Outcome<C>>, AllocError>
        requires sound { HallIsSound C.means (hall_of self.old) }
        requires suit { LinesSuitHall (hall_of self.old) lines.now }
        ensures stay { RoomsStay (hall_of self.old) (hall_of self.new) }
        ensures rooms { OnOk result (EachRoom (hall_of self.old) (hall_of self.new)
            (λ r rules s t. t ≡ (session C.means rules (K.makes maker.now rules) s (lines_in r lines.now)).1)) }
        ensures outcomes { IfOk result (λ v. EachRoom (hall_of self.old) (hall_of self.new)
            (λ r rules s t. outcomes_in r lines.now v.items ≡ (session C.means rules (K.makes maker.now rules) s (lines_in r lines.now)).0)) }
        ensures each { IfOk result (λ v. vec_len v ≡ length lines.now) }
        ensures left { OnErr result (LeftInHall C.means (K.makes maker.now) (hall_of self.old) lines.now (hall_of self.new)) }
        ensures sound { HallIsSound C.means (hall_of self.new) }
    {
        let mut outcomes = Vec::new(alloc);
        for line in lines {
            outcomes.push(self.play(alloc, maker, line)?)?;
        }
        Ok(outcomes)
    }

    /// Settles each room in order, as `Room::settle` says. Running out of memory leaves the rooms before some room settled,
    /// that room as `Room::settle` says, and the later ones as they were.
    pub fn settle(&mut self, alloc: Global) -> Result<(), AllocError>
        requires { HallIsSound C.means (hall_of self.old) }
        ensures stay { RoomsStay (hall_of self.old) (hall_of self.new) }
        ensures settles { OnOk result (EachRoom (hall_of self.old) (hall_of self.new) (λ r rules s t. t ≡ settled C.means rules s)) }
        // Each editor of each room has then the room's whole log and nothing pending, and its document is the authority's.
        ensures caught_up { OnOk result (EachRoom (hall_of self.old) (hall_of self.new) (λ r rules s t. AllCaughtUp t)) }
        ensures left { OnErr result (LeftSettling C.means (hall_of self.old) (hall_of self.new)) }
        ensures sound { HallIsSound C.means (hall_of self.new) }
    {
        for r in 0..self.rooms.len() {
            let rules = &self.rules[r];
            let room = &mut self.rooms[r];
            room.settle(alloc, rules)?;
        }
        Ok(())
    }
}
