//! The desk and its seats.
ghost use Rattle.std.specs.Prelude.{◌≡◌, ℕ, ◌+◌, ◌<◌, ◌^◌, length, [], Some, IfOk, IfErr};
ghost use Rattle.pm_desk.specs.Histories.{state_at, calls_of, Gathers};
ghost use Rattle.pm_desk.specs.Desks.{DeskValue, SeatValue, seat_value, IsSeatOf, first_seat, after_split, new_seat, after_join, Told, IsWhole, AddsNoCall};
ghost use Rattle.pm_desk.specs.Turns.{opened};

use crate::history::{Back, Closed};
use crate::turn;
use pm_change::Machine;
use std::alloc::{AllocError, Global};
use std::marker::Model;
use std::sync::Wait;

/// A machine with its rules, which threads share. Each call is lent a seat, and stands at one place in the desk's one
/// history of calls.
#[derive(Drop)]
pub struct Desk<M: Machine> {
    inner: turn::Desk<M>,
}

impl<M: Machine> Model for Desk<M> {
    ghost use Rattle.pm_desk.specs.Desks.{DeskValue};

    ghost Value = { DeskValue M M.Rules };

    ghost view = { λ d. record { table = d.inner.table.shared.table_id; opening = d.inner.table.shared.key.value } };
}

/// What one caller holds: a number of its own, and how far it has seen the history.
#[derive(Drop)]
pub struct Seat<M: Machine> {
    inner: turn::Seat<M>,
}

impl<M: Machine> Model for Seat<M> {
    ghost use Rattle.std.specs.Prelude.{◌≡◌, [], false};
    ghost use Rattle.pm_desk.specs.Desks.{SeatValue, seat_value};

    ghost Value = { SeatValue M M.Rules M.Request };

    ghost view = { λ s. seat_value s.inner.token.table_id s.inner.token.me.0 };

    ghost invariant = { λ s. (s.inner.token.me.1 ≡ []) × (s.inner.token.me.0.turn ≡ false) × (s.inner.token.me.0.kept ≡ []) };
}

impl<M: Machine> Seat<M> {
    /// The seat's number: 0 for the first seat, and 1, 2, 3 and so on for those that were split from it.
    pub fn number(&self) -> u32
        ensures { result ≡ self.now.number }
    {
        self.inner.number
    }
}

impl<M: Machine> Desk<M> {
    /// A desk over this machine, and its first seat, which has number 0 and has seen nothing. The machine must be good
    /// under the rules.
    pub fn new(alloc: Global, rules: M::Rules, machine: M) -> Result<(Desk<M>, Seat<M>), AllocError>
        requires { M.good rules machine }
        ensures desk { IfOk result (λ d. d.0.opening ≡ opened machine rules) }
        ensures seat { IfOk result (λ d. d.1 ≡ first_seat d.0) }
    {
        let (desk, seat) = turn::Desk::new(alloc, rules, machine)?;
        Ok((Desk { inner: desk }, Seat { inner: seat }))
    }

    /// The rules.
    pub fn rules(&self) -> &M::Rules
        ensures { result.now ≡ self.now.opening.rules }
    {
        self.inner.rules()
    }

    /// A new seat, which has seen what the first seat has and has no call. Its number is one more than the number of seats
    /// split before. The lent seat must be the first. It takes no memory.
    pub fn split(&self, seat: &mut Seat<M>) -> Seat<M>
        requires seat { IsSeatOf self.now seat.old }
        requires first { seat.old.number ≡ 0 }
        requires room { seat.old.splits + 1 < 2 ^ 32 }
        ensures first { seat.new ≡ after_split seat.old }
        ensures new { result ≡ new_seat seat.old }
        ensures none { calls_of result.number result.seen ≡ [] }
    {
        Seat {
            inner: self.inner.split(&mut seat.inner),
        }
    }

    /// The first seat takes in another. It has then seen the longer of what both have seen, which begins with what each
    /// has seen, and keeps the other's number and what it had seen. It takes no memory.
    pub fn join(&self, seat: &mut Seat<M>, other: Seat<M>)
        requires seat { IsSeatOf self.now seat.old }
        requires first { seat.old.number ≡ 0 }
        requires other { IsSeatOf self.now other }
        ensures after { seat.new ≡ after_join seat.old other }
        ensures gathers { Gathers seat.old.number seat.old.seen other.number other.seen seat.new.seen }
    {
        let Seat { inner } = other;
        self.inner.join(&mut seat.inner, inner);
    }

    /// The machine's reply at the call's place in the history. The history up to there begins with all that the seat had
    /// seen, and has no other call of the seat. `Back` comes only from running out of memory, gives the request back, and
    /// leaves history and machine as they were. The call tries until it has the turn: nothing is promised of how long
    /// that takes, or of who comes first. The request must be one that a seat with this number may make.
    pub fn call<R: Wait>(
        &self,
        alloc: Global,
        rt: &R,
        seat: &mut Seat<M>,
        request: M::Request,
    ) -> Result<M::Reply, Back<M::Request>>
        requires seat { IsSeatOf self.now seat.old }
        requires own { M.own seat.old.number request }
        ensures ok { IfOk result (λ r. Told M.next M.reply M.good M.own self.now.opening seat.old request r seat.new) }
        ensures err { IfErr result (λ b. (b.request ≡ request) × (seat.new ≡ seat.old)) }
        // A call that got no reply stands in no history.
        ensures absent { IfErr result (λ _. AddsNoCall M.next M.reply M.good M.own self.now.opening seat.old seat.new) }
    {
        self.inner.call(alloc, rt, &mut seat.inner, request)
    }

    /// The rules, the machine and the whole history. The history begins with what the first seat and each joined one had
    /// seen, and the entries of each are its calls in order. The lent seat must be the first, with as many seats joined
    /// to it as were split from it.
    pub fn close(self, seat: Seat<M>) -> Closed<M>
        requires seat { IsSeatOf self seat }
        requires first { seat.number ≡ 0 }
        requires all { length seat.joined ≡ seat.splits }
        ensures rules { result.rules ≡ self.opening.rules }
        ensures machine { result.machine ≡ state_at M.next self.opening.rules self.opening.machine result.history.items }
        ensures good { M.good result.rules result.machine }
        ensures history { IsWhole M.own seat result.history.items }
    {
        let Desk { inner } = self;
        let Seat { inner: seat } = seat;
        inner.close(seat)
    }
}
