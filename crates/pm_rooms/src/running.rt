//! People that play their lines in many rooms, each on a thread of its own.
ghost use Rattle.std.specs.Prelude.{◌≡◌, ◌<◌, ℕ, All, length, slice_index_or, true, OnOk};
ghost use Rattle.pm_rooms.specs.People.{IsPersonReady, PersonFinished, PersonWorked};

use crate::person::{Floor, Person};
use pm_authority::Authority;
use pm_change::Change;
use pm_desk::Desk;
use pm_io::Gate;
use pm_session::Maker;
use pm_workers::Crew;
use std::alloc::{AllocError, Global};
use std::sync::Wait;
use std::thread::{Threads, for_each_mut};

/// Each person plays its lines in a thread of its own, where one can be made.
fn play_each<C: Change + Send + Sync, K: Maker<C> + Sync, G: Gate + Sync, R: Threads + Wait + Sync>(
    alloc: Global,
    floor: &Floor<C, K, G, R>,
    people: &mut [Person<C, K::Op>],
)
where
    C::Rules: Drop + Send + Sync,
    C::Doc: Send + Sync,
    C::Reason: Send + Sync,
    K::Op: Send + Sync,
    requires { All (λ p. IsPersonReady C.means floor.now.desks.now p) people.old }
    ensures count { length people.new ≡ length people.old }
    ensures finished { (i : ℕ) (d : _) → i < length people.old → PersonFinished C.means floor.now.desks.now (K.makes floor.now.crew.now.maker.now) (slice_index_or people.old i d) (slice_index_or people.new i d) }
{
    if people.is_empty() {
        return;
    }
    let threads = people.len();
    let play = |place: usize, person: &mut Person<C, K::Op>|
        requires { IsPersonReady C.means floor.now.desks.now person.now }
        ensures { PersonFinished C.means floor.entry.now.desks.now (K.makes floor.entry.now.crew.now.maker.now) person.entry.now person.exit.now }
    { person.finish(alloc, floor, number_of(place)) };
    for_each_mut(floor.crew.rt, people, threads, &play);
}

/// The number by which the gate knows a person: its place, from 0, as far as that is a number of 32 bits.
fn number_of(place: usize) -> u32 {
    place.min(u32::MAX as usize) as u32
}

/// Whether each person has an outcome for each of its lines.
fn all_done<C: Change, O>(people: &[Person<C, O>]) -> bool
where
    C::Rules: Drop,
    ensures { result ≡ true → All (λ p. length p.outcomes.items ≡ length p.lines.items) people.now }
{
    for person in people {
        let done = person.is_done();
        if !done {
            return false;
        }
    }
    true
}

/// Each person plays its lines in its rooms, in a thread of its own where one can be made. Room r has desk r. The crew's gate
/// is asked before each call of a desk, with the person's place among the people and the number of its calls over all rooms.
///
/// Each line's room and client are those of a stand of its person, and no two stands of a person are of one client. A stand's
/// seat is of its room's desk and has its member's name as its number, the member stands to the log that the seat has seen, and
/// each of the stand's own lines suits it as those before leave it. There is no outcome yet.
///
/// Each stand is then what `run_lines` makes of a worker that has the stand's own lines alone, in their order. Running out
/// of memory leaves each person with the outcomes of the lines that it finished.
pub fn run_hall<
    C: Change + Send + Sync,
    K: Maker<C> + Sync,
    G: Gate + Sync,
    R: Threads + Wait + Sync,
>(
    alloc: Global,
    crew: &Crew<K, G, R>,
    desks: &[Desk<Authority<C>>],
    people: &mut [Person<C, K::Op>],
) -> Result<(), AllocError>
where
    C::Rules: Drop + Send + Sync,
    C::Doc: Send + Sync,
    C::Reason: Send + Sync,
    K::Op: Send + Sync,
    requires { All (λ p. IsPersonReady C.means desks.now p) people.old }
    ensures count { length people.new ≡ length people.old }
    ensures finished { (i : ℕ) (d : _) → i < length people.old → PersonFinished C.means desks.now (K.makes crew.now.maker.now) (slice_index_or people.old i d) (slice_index_or people.new i d) }
    ensures worked { OnOk result ((i : ℕ) (d : _) → i < length people.old → PersonWorked C.means desks.now (K.makes crew.now.maker.now) (slice_index_or people.old i d) (slice_index_or people.new i d)) }
{
    let floor = Floor { desks, crew };
    play_each(alloc, &floor, people);
    if all_done(people) {
        Ok(())
    } else {
        Err(AllocError)
    }
}
