//! Clients that play their lines at one desk, each on a thread of its own.
ghost use Rattle.std.specs.Prelude.{◌≡◌, ◌<◌, ℕ, [], All, length, vec_len, slice_index_or, true, OnOk, OnErr, IfOk};
ghost use Rattle.pm_session.specs.Members.{name_of};
ghost use Rattle.pm_session.specs.Sounds.{MemberStands};
ghost use Rattle.pm_session.specs.Suits.{SuitsMember};
ghost use Rattle.pm_workers.specs.Seats.{SeesMore, authority_after, Serves};
ghost use Rattle.pm_workers.specs.Suiting.{SuitMember};
ghost use Rattle.pm_workers.specs.Worked.{ActedAt, Worked, Began, Finished, IsReady};

use crate::crew::Crew;
use crate::host::DeskHost;
use pm_authority::Authority;
use pm_change::Change;
use pm_desk::{Desk, Seat};
use pm_io::Gate;
use pm_session::{Line, Maker, Member, Outcome, act};
use std::alloc::{AllocError, Global};
use std::sync::Wait;
use std::thread::{Threads, for_each_mut};

/// A client with its seat of a desk, its lines in order, and what became of those that it played.
#[derive(Drop)]
pub struct Worker<C: Change, O>
where
    C::Rules: Drop,
{
    pub member: Member<C>,
    pub seat: Seat<Authority<C>>,
    pub lines: Vec<Line<O, C>>,
    pub outcomes: Vec<Outcome<C>>,
}

/// A desk and the crew that works at it.
struct Office<'a, C: Change, K, G, R>
where
    C::Rules: Drop,
{
    desk: &'a Desk<Authority<C>>,
    crew: &'a Crew<'a, K, G, R>,
}

impl<C: Change, K, G, R> Drop for Office<'_, C, K, G, R>
where
    C::Rules: Drop,
{
    fn drop(self) {
        let Office { desk: _, crew: _ } = self;
    }
}

impl<'a, C: Change, K: Maker<C>, G: Gate, R: Wait> Office<'a, C, K, G, R>
where
    C::Rules: Drop,
{
    /// The member does what the line says, and presents its messages at this seat. `calls` counts those that were answered.
    fn play_line(
        &self,
        alloc: Global,
        calls: &mut u32,
        seat: &mut Seat<Authority<C>>,
        member: &mut Member<C>,
        line: &Line<K::Op, C>,
    ) -> Result<Outcome<C>, AllocError>
        requires serves { Serves C.means self.now.desk.now seat.old self.now.desk.now.opening.rules line.now.client }
        requires suits { SuitsMember member.old line.now }
        requires stands { MemberStands C.means self.now.desk.now.opening.rules self.now.desk.now.opening.machine.first (authority_after C.means self.now.desk.now seat.old.seen).log member.old }
        ensures acts { IfOk result (λ o. ActedAt C.means (K.makes self.now.crew.now.maker.now self.now.desk.now.opening.rules) self.now.desk.now line.now.act member.old seat.old o member.new seat.new) }
        ensures seat { SeesMore seat.old seat.new }
        ensures serves { Serves C.means self.now.desk.now seat.new self.now.desk.now.opening.rules line.now.client }
        ensures stands { MemberStands C.means self.now.desk.now.opening.rules self.now.desk.now.opening.machine.first (authority_after C.means self.now.desk.now seat.new.seen).log member.new }
    {
        let mut host = DeskHost::new(
            self.crew.rt,
            self.desk,
            seat,
            self.crew.gate,
            line.client,
            *calls,
        );
        let outcome = act(
            alloc,
            member,
            self.desk.rules(),
            self.crew.maker,
            &mut host,
            line,
        );
        *calls = host.calls();
        outcome
    }

    /// The member does what these lines say, one after another, as far as there is memory.
    fn play(
        &self,
        alloc: Global,
        seat: &mut Seat<Authority<C>>,
        member: &mut Member<C>,
        lines: &[Line<K::Op, C>],
        outcomes: &mut Vec<Outcome<C>>,
    ) -> Result<(), AllocError>
        requires { IsReady C.means self.now.desk.now lines.now member.old seat.old outcomes.old.items }
        ensures began { Began C.means (K.makes self.now.crew.now.maker.now self.now.desk.now.opening.rules) self.now.desk.now lines.now member.old seat.old outcomes.new.items seat.new }
        ensures worked { OnOk result (Worked C.means (K.makes self.now.crew.now.maker.now self.now.desk.now.opening.rules) self.now.desk.now lines.now member.old seat.old outcomes.new.items member.new seat.new) }
        ensures left { OnErr result (length outcomes.new.items < length lines.now) }
        ensures serves { Serves C.means self.now.desk.now seat.new self.now.desk.now.opening.rules (name_of member.old) }
    {
        let mut calls = 0;
        for line in lines {
            outcomes.reserve(1)?;
            let outcome = self.play_line(alloc, &mut calls, seat, member, line)?;
            outcomes.push_reserved(outcome);
        }
        Ok(())
    }
}

impl<C: Change, O> Worker<C, O>
where
    C::Rules: Drop,
{
    /// Plays its lines, as far as there is memory.
    fn finish<K: Maker<C, Op = O>, G: Gate, R: Wait>(
        &mut self,
        alloc: Global,
        office: &Office<C, K, G, R>,
    )
        requires { IsReady C.means office.now.desk.now self.old.lines.items self.old.member self.old.seat self.old.outcomes.items }
        ensures finished { Finished C.means (K.makes office.now.crew.now.maker.now office.now.desk.now.opening.rules) office.now.desk.now self.old.lines.items self.old.member self.old.seat self.new.outcomes.items self.new.member self.new.seat }
        ensures lines { self.new.lines ≡ self.old.lines }
    {
        let _played = office.play(
            alloc,
            &mut self.seat,
            &mut self.member,
            self.lines.as_slice(),
            &mut self.outcomes,
        );
    }

    /// Whether there is an outcome for each line.
    fn is_done(&self) -> bool
        ensures { result ≡ true → length self.now.outcomes.items ≡ length self.now.lines.items }
    {
        self.outcomes.len() == self.lines.len()
    }
}

/// Each worker plays its lines in a thread of its own, where one can be made.
fn play_all<C: Change + Send + Sync, K: Maker<C> + Sync, G: Gate + Sync, R: Threads + Wait + Sync>(
    alloc: Global,
    office: &Office<C, K, G, R>,
    workers: &mut [Worker<C, K::Op>],
)
where
    C::Rules: Drop + Send + Sync,
    C::Doc: Send + Sync,
    C::Reason: Send + Sync,
    K::Op: Send + Sync,
    requires { All (λ w. IsReady C.means office.now.desk.now w.lines.items w.member w.seat w.outcomes.items) workers.old }
    ensures count { length workers.new ≡ length workers.old }
    ensures finished { (i : ℕ) (d : _) → i < length workers.old → Finished C.means (K.makes office.now.crew.now.maker.now office.now.desk.now.opening.rules) office.now.desk.now
        (slice_index_or workers.old i d).lines.items (slice_index_or workers.old i d).member (slice_index_or workers.old i d).seat
        (slice_index_or workers.new i d).outcomes.items (slice_index_or workers.new i d).member (slice_index_or workers.new i d).seat }
    ensures lines { (i : ℕ) (d : _) → i < length workers.old → (slice_index_or workers.new i d).lines ≡ (slice_index_or workers.old i d).lines }
{
    if workers.is_empty() {
        return;
    }
    let threads = workers.len();
    let play = |_place: usize, worker: &mut Worker<C, K::Op>|
        requires { IsReady C.means office.now.desk.now worker.now.lines.items worker.now.member worker.now.seat worker.now.outcomes.items }
        ensures { Finished C.means (K.makes office.entry.now.crew.now.maker.now office.entry.now.desk.now.opening.rules) office.entry.now.desk.now worker.entry.now.lines.items worker.entry.now.member worker.entry.now.seat worker.exit.now.outcomes.items worker.exit.now.member worker.exit.now.seat
            × (worker.exit.now.lines ≡ worker.entry.now.lines) }
    { worker.finish(alloc, office) };
    for_each_mut(office.crew.rt, workers, threads, &play);
}

/// Whether each worker has an outcome for each of its lines.
fn all_done<C: Change, O>(workers: &[Worker<C, O>]) -> bool
where
    C::Rules: Drop,
    ensures { result ≡ true → All (λ w. length w.outcomes.items ≡ length w.lines.items) workers.now }
{
    for worker in workers {
        let done = worker.is_done();
        if !done {
            return false;
        }
    }
    true
}

/// Each worker plays its lines at this desk, in a thread of its own where one can be made. The crew's gate is asked before
/// each call of the desk. A worker's seat is this desk's and has its member's name as its number, the member stands to the log
/// that the seat has seen, each line is the member's and suits it as the lines before leave it, and there is no outcome yet.
/// Running out of memory leaves each worker with the outcomes of the lines that it finished.
pub fn run_lines<
    C: Change + Send + Sync,
    K: Maker<C> + Sync,
    G: Gate + Sync,
    R: Threads + Wait + Sync,
>(
    alloc: Global,
    crew: &Crew<K, G, R>,
    desk: &Desk<Authority<C>>,
    workers: &mut [Worker<C, K::Op>],
) -> Result<(), AllocError>
where
    C::Rules: Drop + Send + Sync,
    C::Doc: Send + Sync,
    C::Reason: Send + Sync,
    K::Op: Send + Sync,
    requires { All (λ w. IsReady C.means desk.now w.lines.items w.member w.seat w.outcomes.items) workers.old }
    ensures count { length workers.new ≡ length workers.old }
    ensures finished { (i : ℕ) (d : _) → i < length workers.old → Finished C.means (K.makes crew.now.maker.now desk.now.opening.rules) desk.now
        (slice_index_or workers.old i d).lines.items (slice_index_or workers.old i d).member (slice_index_or workers.old i d).seat
        (slice_index_or workers.new i d).outcomes.items (slice_index_or workers.new i d).member (slice_index_or workers.new i d).seat }
    ensures worked { OnOk result ((i : ℕ) (d : _) → i < length workers.old → Worked C.means (K.makes crew.now.maker.now desk.now.opening.rules) desk.now
        (slice_index_or workers.old i d).lines.items (slice_index_or workers.old i d).member (slice_index_or workers.old i d).seat
        (slice_index_or workers.new i d).outcomes.items (slice_index_or workers.new i d).member (slice_index_or workers.new i d).seat) }
    ensures lines { (i : ℕ) (d : _) → i < length workers.old → (slice_index_or workers.new i d).lines ≡ (slice_index_or workers.old i d).lines }
{
    let office = Office { desk, crew };
    play_all(alloc, &office, workers);
    if all_done(workers) {
        Ok(())
    } else {
        Err(AllocError)
    }
}
