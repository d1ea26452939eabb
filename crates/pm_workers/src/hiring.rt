//! Members become workers, and workers members again.
ghost use Rattle.std.specs.Prelude.{◌≡◌, [], All, map, vec_len, IfOk};

use crate::worker::Worker;
use pm_authority::Authority;
use pm_change::Change;
use pm_desk::Seat;
use pm_session::{Line, Member, Outcome};
use std::alloc::{AllocError, Global};

/// What workers leave, in their order.
#[derive(Drop)]
pub(crate) struct Dismissed<C: Change, O>
where
    C::Rules: Drop,
{
    pub members: Vec<Member<C>>,
    pub seats: Vec<Seat<Authority<C>>>,
    pub lines: Vec<Vec<Line<O, C>>>,
    pub outcomes: Vec<Vec<Outcome<C>>>,
}

/// A worker for each member, with its seat and its lines, in order. There is no outcome yet.
pub(crate) fn hire<C: Change, O: Drop>(
    alloc: Global,
    members: Vec<Member<C>>,
    seats: Vec<Seat<Authority<C>>>,
    lines: Vec<Vec<Line<O, C>>>,
) -> Result<Vec<Worker<C, O>>, AllocError>
where
    C::Rules: Drop,
    requires seats { vec_len seats ≡ vec_len members }
    requires lines { vec_len lines ≡ vec_len members }
    ensures members { IfOk result (λ v. map (λ w. w.member) v.items ≡ members.items) }
    ensures seats { IfOk result (λ v. map (λ w. w.seat) v.items ≡ seats.items) }
    ensures lines { IfOk result (λ v. map (λ w. w.lines) v.items ≡ lines.items) }
    ensures none { IfOk result (λ v. All (λ w. w.outcomes.items ≡ []) v.items) }
{
    let mut workers = Vec::new(alloc);
    for ((member, seat), lines) in members.into_iter().zip(seats).zip(lines) {
        workers.push(Worker {
            member,
            seat,
            lines,
            outcomes: Vec::new(alloc),
        })?;
    }
    Ok(workers)
}

/// What these workers leave, in order.
pub(crate) fn dismiss<C: Change, O: Drop>(
    alloc: Global,
    workers: Vec<Worker<C, O>>,
) -> Result<Dismissed<C, O>, AllocError>
where
    C::Rules: Drop,
    ensures members { IfOk result (λ d. d.members.items ≡ map (λ w. w.member) workers.items) }
    ensures seats { IfOk result (λ d. d.seats.items ≡ map (λ w. w.seat) workers.items) }
    ensures lines { IfOk result (λ d. d.lines.items ≡ map (λ w. w.lines) workers.items) }
    ensures outcomes { IfOk result (λ d. d.outcomes.items ≡ map (λ w. w.outcomes) workers.items) }
{
    let mut left = Dismissed {
        members: Vec::new(alloc),
        seats: Vec::new(alloc),
        lines: Vec::new(alloc),
        outcomes: Vec::new(alloc),
    };
    for worker in workers {
        let Worker {
            member,
            seat,
            lines,
            outcomes,
        } = worker;
        left.members.push(member)?;
        left.seats.push(seat)?;
        left.lines.push(lines)?;
        left.outcomes.push(outcomes)?;
    }
    Ok(left)
}
