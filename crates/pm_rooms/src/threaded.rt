//! A session in many rooms whose people have threads of their own.
ghost use Rattle.std.specs.Prelude.{◌<◌, ◌^◌, All, vec_len, IfOk, OnOk};
ghost use Rattle.pm_rooms.specs.Handed.{Matched};
ghost use Rattle.pm_rooms.specs.Opened.{CanOpen};
ghost use Rattle.pm_rooms.specs.People.{IsPersonReady};
ghost use Rattle.pm_rooms.specs.Played.{AllPeopleWorked, RoomIsOrderly};

use crate::ending::close_all;
use crate::merging::interleave;
use crate::new_room::NewRoom;
use crate::opening::{Opened, open_all};
use crate::parting::part_all;
use crate::person::Person;
use crate::running::run_hall;
use crate::sharing::{Crowd, gather};
use pm_authority::Authority;
use pm_change::Change;
use pm_desk::Desk;
use pm_io::Gate;
use pm_session::Maker;
use pm_workers::{Crew, Threaded, deal};
use std::alloc::{AllocError, Global};
use std::sync::Wait;
use std::thread::Threads;

/// Plays a session in these rooms, each at a desk of its own. The clients of one person, in whichever rooms, are played by one
/// thread, as far as one can be made. The person's lines are played in the order of their numbers, and the crew's gate is asked
/// before each call with the person's number and the count of its calls over all rooms.
///
/// Each room's document must be good by its rules, it must have 1 to 32 clients, and its lines must suit it. There are less than
/// 2^32 rooms. What is told of each room is then what `play_on_threads` tells of that room's session alone: the lines of other
/// rooms change nothing of it. `AllocError` comes from running out of memory, and where the places of a room's lines are no
/// numbers of 32 bits.
pub fn play_rooms_on_threads<C, K, G, R>(
    alloc: Global,
    crew: &Crew<K, G, R>,
    rooms: Vec<NewRoom<C, K::Op>>,
) -> Result<Vec<Threaded<C, K::Op>>, AllocError>
where
    R: Threads + Wait + Sync,
    G: Gate + Sync,
    K: Maker<C> + Sync,
    C: Change + Send + Sync,
    C::Rules: Send + Sync + Drop,
    C::Doc: Send + Sync,
    C::Reason: Send + Sync,
    K::Op: Send + Sync + Drop,
    requires few { vec_len rooms < 2 ^ 32 }
    requires can { All (λ room. CanOpen C.means room) rooms.items }
    ensures { IfOk result (λ v. Matched (λ room t. RoomIsOrderly C.means (K.makes crew.now.maker.now) room t) rooms.items v.items) }
{
    let Opened {
        desks,
        files,
        stands,
        people,
        lines,
    } = open_all(alloc, rooms)?;
    let lines = interleave(alloc, lines)?;
    let Crowd { mut people, turns } = gather(alloc, people.as_slice(), stands, lines)?;
    play_all_people(alloc, crew, desks.as_slice(), &mut people)?;
    let workers = part_all(alloc, people)?;
    let workers = deal(alloc, turns.as_slice(), workers)?;
    close_all(alloc, desks, files.as_slice(), workers)
}

/// The people play all their lines at these desks.
fn play_all_people<C, K, G, R>(
    alloc: Global,
    crew: &Crew<K, G, R>,
    desks: &[Desk<Authority<C>>],
    people: &mut Vec<Person<C, K::Op>>,
) -> Result<(), AllocError>
where
    R: Threads + Wait + Sync,
    G: Gate + Sync,
    K: Maker<C> + Sync,
    C: Change + Send + Sync,
    C::Rules: Send + Sync + Drop,
    C::Doc: Send + Sync,
    C::Reason: Send + Sync,
    K::Op: Send + Sync,
    requires { All (λ p. IsPersonReady C.means desks.now p) people.old.items }
    ensures { OnOk result (AllPeopleWorked C.means desks.now (K.makes crew.now.maker.now) people.old.items people.new.items) }
{
    run_hall(alloc, crew, desks, people.as_mut_slice())
}
