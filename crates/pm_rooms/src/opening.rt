//! All rooms are opened, each at a desk of its own.
ghost use Rattle.std.specs.Prelude.{◌≡◌, ◌<◌, ◌^◌, ◌++◌, All, vec_len, IfOk, OnOk};
ghost use Rattle.pm_rooms.specs.Opened.{stands_of, CanOpen};
ghost use Rattle.pm_rooms.specs.Openings.{AreOpened, IsOpenedToo};

use crate::new_room::NewRoom;
use crate::stand::Stand;
use pm_authority::Authority;
use pm_change::Change;
use pm_desk::{Desk, Seat};
use pm_session::{Line, Member};
use pm_workers::{File, Seated, file_of, open_desk};
use std::alloc::{AllocError, Global};

/// Rooms that were opened, in order.
#[derive(Drop)]
pub(crate) struct Opened<C: Change, O>
where
    C::Rules: Drop,
{
    pub desks: Vec<Desk<Authority<C>>>,
    pub files: Vec<File>,
    /// The stands of all clients, room by room.
    pub stands: Vec<Stand<C>>,
    /// Of each room the person of each client.
    pub people: Vec<Vec<u32>>,
    /// The lines of each room.
    pub lines: Vec<Vec<Line<O, C>>>,
}

/// Opens each of these rooms at a desk of its own.
pub(crate) fn open_all<C: Change, O: Drop>(
    alloc: Global,
    rooms: Vec<NewRoom<C, O>>,
) -> Result<Opened<C, O>, AllocError>
where
    C::Rules: Drop,
    requires few { vec_len rooms < 2 ^ 32 }
    requires can { All (λ room. CanOpen C.means room) rooms.items }
    ensures { IfOk result (λ o. AreOpened C.means rooms.items o) }
{
    let mut all = Opened {
        desks: Vec::new(alloc),
        files: Vec::new(alloc),
        stands: Vec::new(alloc),
        people: Vec::new(alloc),
        lines: Vec::new(alloc),
    };
    for room in rooms {
        open_one(alloc, &mut all, room)?;
    }
    Ok(all)
}

/// Opens this room after those that are open.
fn open_one<C: Change, O: Drop>(
    alloc: Global,
    all: &mut Opened<C, O>,
    room: NewRoom<C, O>,
) -> Result<(), AllocError>
where
    C::Rules: Drop,
    requires few { vec_len all.old.desks < 2 ^ 32 }
    requires can { CanOpen C.means room }
    ensures { OnOk result (IsOpenedToo C.means all.old room all.new) }
{
    let NewRoom {
        rules,
        doc,
        raw,
        people,
        lines,
    } = room;
    let number = all.desks.len() as u32;
    let file = file_of(alloc, raw.len(), lines.as_slice())?;
    let Seated {
        desk,
        members,
        seats,
    } = open_desk(alloc, rules, doc, raw.as_slice())?;
    stand_up(&mut all.stands, number, members, seats)?;
    all.desks.push(desk)?;
    all.files.push(file)?;
    all.people.push(people)?;
    all.lines.push(lines)?;
    Ok(())
}

/// Puts the stands of a room's clients after these stands. There are as many seats as members.
fn stand_up<C: Change>(
    stands: &mut Vec<Stand<C>>,
    room: u32,
    mut members: Vec<Member<C>>,
    mut seats: Vec<Seat<Authority<C>>>,
) -> Result<(), AllocError>
where
    C::Rules: Drop,
    requires few { vec_len members < 2 ^ 32 }
    requires each { vec_len seats ≡ vec_len members }
    ensures { OnOk result (stands.new.items ≡ stands.old.items ++ stands_of room 0 members.items seats.items) }
{
    for client in 0..members.len() as u32 {
        let member = members.remove(0);
        let seat = seats.remove(0);
        stands.push(Stand {
            room,
            client,
            member,
            seat,
        })?;
    }
    Ok(())
}
