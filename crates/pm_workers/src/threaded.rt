//! A session whose clients run on threads of their own.
ghost use Rattle.std.specs.Prelude.{◌≡◌, ◌<◌, ◌≤◌, List, Result, length, All, IfOk, OnOk};
ghost use Rattle.pm_change.specs.declared.no_step.NoStep.{NoStep};
ghost use Rattle.pm_session.specs.Sessions.{opened};
ghost use Rattle.pm_session.specs.Suits.{LinesSuit};
ghost use Rattle.pm_workers.specs.Hired.{Hired, AllWorked};
ghost use Rattle.pm_workers.specs.Orderly.{IsOrderly};
ghost use Rattle.pm_workers.specs.Worked.{IsReady};

use crate::close::close_room;
use crate::crew::Crew;
use crate::file::file_of;
use crate::hands::hand_out;
use crate::hiring::hire;
use crate::opening::{Seated, open_desk};
use crate::worker::{Worker, run_lines};
use pm_authority::Authority;
use pm_change::Change;
use pm_desk::Desk;
use pm_io::Gate;
use pm_session::{Line, Maker, Outcome, Room};
use std::alloc::{AllocError, Global};
use std::sync::Wait;
use std::thread::Threads;

/// A session that was played on threads.
#[derive(Drop)]
pub struct Threaded<C: Change, O>
where
    C::Rules: Drop,
{
    pub rules: C::Rules,
    /// The places of the lines, from 0, in the order in which they count as played.
    pub order: Vec<u32>,
    /// The lines in that order.
    pub lines: Vec<Line<O, C>>,
    /// What became of each line in that order.
    pub outcomes: Vec<Outcome<C>>,
    /// The room after the last of them.
    pub room: Room<C>,
}

/// Plays a whole session, where each client's lines are played by a thread of its own, as far as one can be made. The document
/// must be good by the rules, `raw` says of each client whether it is a raw one, there are at most 32, and the lines must suit
/// the room that is opened so.
///
/// It is then the session on one thread, in the order that the calls of the clients came to: each client's lines stand in it in
/// their order. `AllocError` comes from running out of memory, and where the places of the lines are no numbers of 32 bits.
pub fn play_on_threads<C, K, G, R>(
    alloc: Global,
    crew: &Crew<K, G, R>,
    rules: C::Rules,
    doc: C::Doc,
    raw: &[bool],
    lines: Vec<Line<K::Op, C>>,
) -> Result<Threaded<C, K::Op>, AllocError>
where
    R: Threads + Wait + Sync,
    G: Gate + Sync,
    K: Maker<C> + Sync,
    C: Change + Send + Sync,
    C::Rules: Send + Sync + Drop,
    C::Doc: Send + Sync,
    C::Reason: Send + Sync,
    K::Op: Send + Sync + Drop,
    requires good { C.means.is_good rules doc }
    requires few { length raw.now ≤ 32 }
    requires suit { LinesSuit {Rules = C.Rules} {Reason = C.Reason} (opened doc raw.now) lines.items }
    ensures { IfOk result (λ t. IsOrderly C.means (K.makes crew.now.maker.now) rules doc raw.now lines.items t) }
{
    if raw.is_empty() {
        return no_clients(alloc, rules, doc, raw, lines);
    }
    let file = file_of(alloc, raw.len(), lines.as_slice())?;
    let (desk, mut workers) = hire_all(alloc, rules, doc, raw, lines)?;
    play_all_lines(alloc, crew, &desk, &mut workers)?;
    close_room(alloc, desk, &file, workers)
}

/// A desk over a new authority at this document, and a worker for each client, which has its own of these lines.
fn hire_all<C: Change, O: Drop>(
    alloc: Global,
    rules: C::Rules,
    doc: C::Doc,
    raw: &[bool],
    lines: Vec<Line<O, C>>,
) -> Result<(Desk<Authority<C>>, Vec<Worker<C, O>>), AllocError>
where
    C::Rules: Drop,
    requires some { 0 < length raw.now }
    requires good { C.means.is_good rules doc }
    requires few { length raw.now ≤ 32 }
    requires suit { LinesSuit {Rules = C.Rules} {Reason = C.Reason} (opened doc raw.now) lines.items }
    ensures rules { IfOk result (λ p. p.0.opening.rules ≡ rules) }
    ensures hired { IfOk result (λ p. Hired C.means p.0 doc raw.now lines.items p.1.items) }
{
    let own = hand_out(alloc, raw.len(), lines)?;
    let Seated {
        desk,
        members,
        seats,
    } = open_desk(alloc, rules, doc, raw)?;
    let workers = hire(alloc, members, seats, own)?;
    Ok((desk, workers))
}

/// The workers play all their lines at the desk.
fn play_all_lines<C, K, G, R>(
    alloc: Global,
    crew: &Crew<K, G, R>,
    desk: &Desk<Authority<C>>,
    workers: &mut Vec<Worker<C, K::Op>>,
) -> Result<(), AllocError>
where
    R: Threads + Wait + Sync,
    G: Gate + Sync,
    K: Maker<C> + Sync,
    C: Change + Send + Sync,
    C::Rules: Send + Sync + Drop,
    C::Doc: Send + Sync,
    C::Reason: Send + Sync,
    K::Op: Send + Sync,
    requires { All (λ w. IsReady C.means desk.now w.lines.items w.member w.seat w.outcomes.items) workers.old.items }
    ensures { OnOk result (AllWorked C.means (K.makes crew.now.maker.now desk.now.opening.rules) desk.now workers.old.items workers.new.items) }
{
    run_lines(alloc, crew, desk, workers.as_mut_slice())
}

/// A session with no clients, in which there are no lines.
fn no_clients<C: Change, O>(
    alloc: Global,
    rules: C::Rules,
    doc: C::Doc,
    raw: &[bool],
    lines: Vec<Line<O, C>>,
) -> Result<Threaded<C, O>, AllocError>
where
    C::Rules: Drop,
    O: Drop,
    requires good { C.means.is_good rules doc }
    requires none { length raw.now ≡ 0 }
    requires suit { LinesSuit {Rules = C.Rules} {Reason = C.Reason} (opened doc raw.now) lines.items }
    ensures { (makes : C.Rules → C.Doc → O → Result (List C) NoStep) → IfOk result (λ t. IsOrderly C.means makes rules doc raw.now lines.items t) }
{
    let room = Room::new(alloc, &rules, doc, raw)?;
    Ok(Threaded {
        rules,
        order: Vec::new(alloc),
        lines,
        outcomes: Vec::new(alloc),
        room,
    })
}
