//! A person's stands, apart: each with its own lines and what became of them.
ghost use Rattle.std.specs.Prelude.{◌≡◌, ◌<◌, ℕ, [], All, Some, length, map, vec_len, slice_get, IfOk};
ghost use Rattle.pm_rooms.specs.Handed.{Matched};
ghost use Rattle.pm_rooms.specs.Parted.{CanPart, IsParted, ArePlaces};
ghost use Rattle.pm_rooms.specs.Stands.{HasStand};

use crate::line::RoomLine;
use crate::person::Person;
use crate::stand::{Stand, stand_of};
use pm_change::Change;
use pm_workers::Worker;
use std::alloc::{AllocError, Global};
use std::collections::VecDeque;

/// The stands of all people, apart. Each person has played all its lines.
pub(crate) fn part_all<C: Change, O: Drop>(
    alloc: Global,
    people: Vec<Person<C, O>>,
) -> Result<Vec<Vec<Worker<C, O>>>, AllocError>
where
    C::Rules: Drop,
    requires { All (λ p. CanPart p) people.items }
    ensures { IfOk result (λ v. Matched (λ p w. IsParted p w.items) people.items v.items) }
{
    let mut all = Vec::new(alloc);
    for person in people {
        all.push(part(alloc, person)?)?;
    }
    Ok(all)
}

/// A person's stands as workers, each with its own lines and what became of them.
fn part<C: Change, O: Drop>(
    alloc: Global,
    person: Person<C, O>,
) -> Result<Vec<Worker<C, O>>, AllocError>
where
    C::Rules: Drop,
    requires { CanPart person }
    ensures { IfOk result (λ w. IsParted person w.items) }
{
    let Person {
        stands,
        lines,
        outcomes,
    } = person;
    let places = places_of(alloc, stands.as_slice(), lines.as_slice())?;
    let mut workers = idle_workers(alloc, stands)?;
    let mut lines = VecDeque::from(lines);
    let mut outcomes = VecDeque::from(outcomes);
    for place in &places {
        let line = lines.pop_front().unwrap();
        let outcome = outcomes.pop_front().unwrap();
        let worker = &mut workers[*place];
        worker.lines.push(line.line)?;
        worker.outcomes.push(outcome)?;
    }
    Ok(workers)
}

/// The place of the stand of each line.
fn places_of<C: Change, O>(
    alloc: Global,
    stands: &[Stand<C>],
    lines: &[RoomLine<O, C>],
) -> Result<Vec<usize>, AllocError>
where
    C::Rules: Drop,
    requires { All (λ line. HasStand stands.now line) lines.now }
    ensures count { IfOk result (λ v. length v.items ≡ length lines.now) }
    ensures places { IfOk result (λ v. ArePlaces stands.now lines.now v.items) }
{
    let mut places = Vec::new(alloc);
    for line in lines {
        places.push(stand_of(stands, line))?;
    }
    Ok(places)
}

/// A worker for each stand, that has no line.
fn idle_workers<C: Change, O: Drop>(
    alloc: Global,
    stands: Vec<Stand<C>>,
) -> Result<Vec<Worker<C, O>>, AllocError>
where
    C::Rules: Drop,
    ensures members { IfOk result (λ v. map (λ w. w.member) v.items ≡ map (λ x. x.member) stands.items) }
    ensures seats { IfOk result (λ v. map (λ w. w.seat) v.items ≡ map (λ x. x.seat) stands.items) }
    ensures idle { IfOk result (λ v. All (λ w. w.lines.items ≡ [] × w.outcomes.items ≡ []) v.items) }
{
    let mut workers = Vec::new(alloc);
    for stand in stands {
        let Stand {
            room: _,
            client: _,
            member,
            seat,
        } = stand;
        workers.push(Worker {
            member,
            seat,
            lines: Vec::new(alloc),
            outcomes: Vec::new(alloc),
        })?;
    }
    Ok(workers)
}
