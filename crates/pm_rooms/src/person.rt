//! A person that plays as a client of several rooms.
ghost use Rattle.std.specs.Prelude.{◌≡◌, ◌<◌, [], length, slice_get, true, Some, IfOk};
ghost use Rattle.pm_rooms.specs.Stands.{IsPlayedBy, HasStand};
ghost use Rattle.pm_rooms.specs.People.{IsPersonReady, PersonFinished, LineReady, LinePlayed, StandsReady, StandsFinished};
ghost use Rattle.pm_rooms.specs.declared.stand.Stand.{Stand};
ghost use Rattle.pm_session.specs.Sounds.{MemberStands};
ghost use Rattle.pm_session.specs.Suits.{SuitsMember};
ghost use Rattle.pm_workers.specs.Seats.{SeesMore, authority_after, Serves};
ghost use Rattle.pm_workers.specs.Worked.{ActedAt};

use crate::line::RoomLine;
use crate::stand::{Stand, stand_of};
use pm_authority::Authority;
use pm_change::Change;
use pm_desk::Desk;
use pm_io::Gate;
use pm_session::{Line, Maker, Outcome, act};
use pm_workers::{Crew, DeskHost};
use std::alloc::{AllocError, Global};
use std::sync::Wait;

/// A person with its stands, its lines in order, and what became of those that it played.
#[derive(Drop)]
pub struct Person<C: Change, O>
where
    C::Rules: Drop,
{
    pub stands: Vec<Stand<C>>,
    pub lines: Vec<RoomLine<O, C>>,
    pub outcomes: Vec<Outcome<C>>,
}

/// The desks of all rooms, and the crew that works at them.
pub(crate) struct Floor<'a, C: Change, K, G, R>
where
    C::Rules: Drop,
{
    pub desks: &'a [Desk<Authority<C>>],
    pub crew: &'a Crew<'a, K, G, R>,
}

impl<C: Change, K, G, R> Drop for Floor<'_, C, K, G, R>
where
    C::Rules: Drop,
{
    fn drop(self) {
        let Floor { desks: _, crew: _ } = self;
    }
}

/// Whom the gate is asked for: a person's number, and how many of its calls were answered over all rooms.
#[derive(Drop)]
struct Caller {
    person: u32,
    calls: u32,
}

impl<C: Change, O> Person<C, O>
where
    C::Rules: Drop,
{
    /// Plays its lines, as far as there is memory. The gate knows it by this number.
    pub(crate) fn finish<K: Maker<C, Op = O>, G: Gate, R: Wait>(
        &mut self,
        alloc: Global,
        floor: &Floor<C, K, G, R>,
        number: u32,
    )
        requires { IsPersonReady C.means floor.now.desks.now self.old }
        ensures { PersonFinished C.means floor.now.desks.now (K.makes floor.now.crew.now.maker.now) self.old self.new }
    {
        let _played = floor.play(
            alloc,
            number,
            self.stands.as_mut_slice(),
            self.lines.as_slice(),
            &mut self.outcomes,
        );
    }

    /// Whether there is an outcome for each line.
    pub(crate) fn is_done(&self) -> bool
        ensures { result ≡ true → length self.now.outcomes.items ≡ length self.now.lines.items }
    {
        self.outcomes.len() == self.lines.len()
    }
}

impl<'a, C: Change, K: Maker<C>, G: Gate, R: Wait> Floor<'a, C, K, G, R>
where
    C::Rules: Drop,
{
    /// These stands do what the lines say, one after another, as far as there is memory.
    fn play(
        &self,
        alloc: Global,
        number: u32,
        stands: &mut [Stand<C>],
        lines: &[RoomLine<K::Op, C>],
        outcomes: &mut Vec<Outcome<C>>,
    ) -> Result<(), AllocError>
        requires ready { StandsReady C.means self.now.desks.now stands.old lines.now }
        requires none { outcomes.old.items ≡ [] }
        ensures { StandsFinished C.means self.now.desks.now (K.makes self.now.crew.now.maker.now) lines.now stands.old outcomes.new.items stands.new }
    {
        let mut caller = Caller {
            person: number,
            calls: 0,
        };
        for line in lines {
            outcomes.reserve(1)?;
            let outcome = self.play_line(alloc, &mut caller, stands, line)?;
            outcomes.push_reserved(outcome);
        }
        Ok(())
    }

    /// The stand of the line does what the line says, at the desk of its room.
    fn play_line(
        &self,
        alloc: Global,
        caller: &mut Caller,
        stands: &mut [Stand<C>],
        line: &RoomLine<K::Op, C>,
    ) -> Result<Outcome<C>, AllocError>
        requires there { HasStand stands.old line.now }
        requires desk { line.now.room < length self.now.desks.now }
        requires ready { LineReady C.means self.now.desks.now stands.old line.now }
        ensures { LinePlayed C.means self.now.desks.now (K.makes self.now.crew.now.maker.now) stands.old line.now result stands.new }
    {
        let at = stand_of(stands, line);
        let desk = &self.desks[line.room as usize];
        let stand = &mut stands[at];
        play_at(alloc, self.crew, caller, desk, stand, &line.line)
    }
}

/// The stand's member does what the line says, and presents its messages at the stand's seat of this desk.
fn play_at<C: Change, K: Maker<C>, G: Gate, R: Wait>(
    alloc: Global,
    crew: &Crew<K, G, R>,
    caller: &mut Caller,
    desk: &Desk<Authority<C>>,
    stand: &mut Stand<C>,
    line: &Line<K::Op, C>,
) -> Result<Outcome<C>, AllocError>
where
    C::Rules: Drop,
    requires serves { Serves C.means desk.now stand.old.seat desk.now.opening.rules line.now.client }
    requires suits { SuitsMember stand.old.member line.now }
    requires stands { MemberStands C.means desk.now.opening.rules desk.now.opening.machine.first (authority_after C.means desk.now stand.old.seat.seen).log stand.old.member }
    ensures acts { IfOk result (λ o. ActedAt C.means (K.makes crew.now.maker.now desk.now.opening.rules) desk.now line.now.act stand.old.member stand.old.seat o stand.new.member stand.new.seat) }
    ensures seat { SeesMore stand.old.seat stand.new.seat }
    ensures serves { Serves C.means desk.now stand.new.seat desk.now.opening.rules line.now.client }
    ensures stands { MemberStands C.means desk.now.opening.rules desk.now.opening.machine.first (authority_after C.means desk.now stand.new.seat.seen).log stand.new.member }
    ensures room { stand.new.room ≡ stand.old.room }
    ensures client { stand.new.client ≡ stand.old.client }
{
    let mut host = DeskHost::new(
        crew.rt,
        desk,
        &mut stand.seat,
        crew.gate,
        caller.person,
        caller.calls,
    );
    let outcome = act(
        alloc,
        &mut stand.member,
        desk.rules(),
        crew.maker,
        &mut host,
        line,
    );
    caller.calls = host.calls();
    outcome
}
