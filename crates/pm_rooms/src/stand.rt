//! A client of a room, where it plays at the room's desk.
ghost use Rattle.std.specs.Prelude.{◌≡◌, slice_get, Some};
ghost use Rattle.pm_rooms.specs.Stands.{IsPlayedBy, HasStand};
ghost use Rattle.pm_rooms.specs.declared.stand.Stand.{Stand};

use crate::line::RoomLine;
use pm_authority::Authority;
use pm_change::Change;
use pm_desk::Seat;
use pm_session::Member;

/// A client of a room, with its seat of the room's desk.
#[derive(Drop)]
pub struct Stand<C: Change>
where
    C::Rules: Drop,
{
    /// The room's number, from 0.
    pub room: u32,
    /// The client's number in the room, from 0.
    pub client: u32,
    pub member: Member<C>,
    pub seat: Seat<Authority<C>>,
}

/// The place of the stand that plays this line, which must be there.
pub(crate) fn stand_of<C: Change, O>(stands: &[Stand<C>], line: &RoomLine<O, C>) -> usize
where
    C::Rules: Drop,
    requires { HasStand stands.now line.now }
    ensures { ((x : Stand C C.Rules C.Doc C.Reason) × (slice_get stands.now result ≡ Some x) × IsPlayedBy x line.now) }
{
    for at in 0..stands.len() {
        let stand = &stands[at];
        if stand.room == line.room && stand.client == line.line.client {
            return at;
        }
    }
    unreachable!()
}
