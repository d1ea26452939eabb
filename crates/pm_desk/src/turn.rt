//! The machine under a turn. These types have the table's own words for desk and seat; callers see those of `desk`.
ghost use Rattle.std.specs.Prelude.{◌≡◌, ℕ, ◌+◌, ◌<◌, ◌^◌, length, [], ◌∷◌, ◌++◌, Some, IfOk, IfErr, OnOk, OnErr, vec_len, vec_capacity};
ghost use Rattle.std.specs.Coded.{Coded-set};
ghost use Rattle.pm_desk.specs.Histories.{past, state_at, calls_of, Gathers};
ghost use Rattle.pm_desk.specs.Turns.{AtRest, HoldsEnd, HasTurn, Answered, newcomer, IsOf, opened, with_split, split_off, with_joined, Ending};

use crate::history::{Back, Closed, Opening, Past, Stored};
use crate::plays::{About, Deal, Gather, Look, Release, Sight, Slot, Token, Try, Turns};
use atomic_table::{Refused, Table};
use pm_change::Machine;
use std::alloc::{AllocError, Global};
use std::snapshot::Snapshot;
use std::sync::Wait;
use std::thread::yield_now;

/// A machine that seats share.
#[derive(Drop)]
pub struct Desk<M: Machine> {
    pub table: Table<Slot<M>, Sight<M>, About<M>, Turns<M>, Global>,
    pub rules: M::Rules,
    ghost sized: { (table.shared.table_id.words ≡ 1) × (table.shared.table_id.slots ≡ 1) },
    ghost ruled: { rules ≡ table.shared.key.value.rules } by { Coded-set M.Rules.code rules table.shared.key.value.rules },
}

/// What one caller holds: its number, and how many seats were split from it.
#[derive(Drop)]
pub struct Seat<M: Machine> {
    pub number: u32,
    pub splits: u32,
    pub token: Token<M>,
    ghost numbered: { (number ≡ token.me.0.number) × (splits ≡ token.me.0.splits) },
}

impl<M: Machine> Desk<M> {
    // Tries until it has the turn.
    fn take_turn<R: Wait>(&self, rt: &R, token: &mut Token<M>)
        requires desk { token.old.table_id ≡ self.now.table.shared.table_id }
        requires rest { AtRest self.now.table.shared.key.value token.old.me }
        ensures same { (token.new.table_id ≡ token.old.table_id) × (token.new.id ≡ token.old.id) }
        ensures value { HasTurn M.next M.good self.now.table.shared.key.value token.old.me.0 token.new.me }
    {
        // A word that is 0 means that the turn is free.
        for _ in rt.forever() {
            if self.table.shared.compare_exchange::<Try<M>>(token, 0, 0, 1) == 0 {
                return;
            }
            yield_now();
        }
        unreachable!()
    }

    // Answers the request in the slot. A call that got a reply then stands at the end of the slot's history.
    fn answer(
        &self,
        alloc: Global,
        token: &mut Token<M>,
        seat: u32,
        request: M::Request,
    ) -> Result<M::Reply, Back<M::Request>>
        requires desk { token.old.table_id ≡ self.now.table.shared.table_id }
        requires value { HoldsEnd M.next M.good self.now.table.shared.key.value token.old.me.0.kept token.old.me }
        ensures same { (token.new.table_id ≡ token.old.table_id) × (token.new.id ≡ token.old.id) × (token.new.me.0 ≡ token.old.me.0) }
        ensures ok { let opening = self.now.table.shared.key.value in let log = token.old.me.0.kept in IfOk result (λ r. (r ≡ M.reply opening.rules (state_at M.next opening.rules opening.machine log) request) × HoldsEnd M.next M.good opening (log ++ past seat request ∷ []) token.new.me) }
        ensures err { IfErr result (λ b. (b.request ≡ request) × HoldsEnd M.next M.good self.now.table.shared.key.value token.old.me.0.kept token.new.me) }
    {
        let stored = token.slot_mut(&self.table.shared, 0);
        match answer(alloc, stored, &self.rules, &request) {
            Ok(reply) => {
                stored.history.push_reserved(Past { seat, request });
                Ok(reply)
            }
            Err(_) => Err(Back { request }),
        }
    }
}

impl<M: Machine> Desk<M> {
    /// The table, with the turn free and the machine in its slot.
    pub fn new(alloc: Global, rules: M::Rules, machine: M) -> Result<(Desk<M>, Seat<M>), AllocError>
        requires { M.good rules machine }
        ensures desk { IfOk result (λ d. d.0.table.shared.key.value ≡ opened machine rules) }
        ensures seat { IfOk result (λ d. IsOf d.0.table.shared.table_id d.0.table.shared.key.value d.1.token × (d.1.token.me.0 ≡ newcomer (opened machine rules) 0 [])) }
    {
        let opening = Opening { machine, rules };
        let about = Snapshot::of(&opening);
        let Opening { machine, rules } = opening;
        let mut slots = Vec::with_capacity(alloc, 1)?;
        slots.push_reserved(Stored {
            machine,
            history: Vec::new(alloc),
        });
        match Table::new(alloc, &[0], slots, &about) {
            Ok((table, token)) => {
                let desk = Desk { table, rules };
                let seat = Seat {
                    number: 0,
                    splits: 0,
                    token,
                };
                Ok((desk, seat))
            }
            Err(Refused { slots: _ }) => Err(AllocError),
        }
    }

    pub fn rules(&self) -> &M::Rules
        ensures { result.now ≡ self.now.table.shared.key.value.rules }
    {
        &self.rules
    }

    /// A new seat, which has seen what the first one has.
    pub fn split(&self, seat: &mut Seat<M>) -> Seat<M>
        requires seat { IsOf self.now.table.shared.table_id self.now.table.shared.key.value seat.old.token }
        requires first { seat.old.number ≡ 0 }
        requires room { seat.old.splits + 1 < 2 ^ 32 }
        ensures first { IsOf self.now.table.shared.table_id self.now.table.shared.key.value seat.new.token × (seat.new.token.me.0 ≡ with_split seat.old.token.me.0) }
        ensures new { IsOf self.now.table.shared.table_id self.now.table.shared.key.value result.token × (result.token.me.0 ≡ split_off seat.old.token.me.0) }
        ensures none { calls_of result.token.me.0.number result.token.me.0.seen ≡ [] }
    {
        // Only a read tells that no call has the next number.
        self.table.shared.load::<Look<M>>(&mut seat.token, 0);
        let token = self.table.shared.split_seat::<Deal<M>>(&mut seat.token);
        seat.splits += 1;
        Seat {
            number: seat.splits,
            splits: 0,
            token,
        }
    }

    /// The first seat takes in another.
    pub fn join(&self, seat: &mut Seat<M>, other: Seat<M>)
        requires seat { IsOf self.now.table.shared.table_id self.now.table.shared.key.value seat.old.token }
        requires first { seat.old.number ≡ 0 }
        requires other { IsOf self.now.table.shared.table_id self.now.table.shared.key.value other.token }
        ensures view { IsOf self.now.table.shared.table_id self.now.table.shared.key.value seat.new.token × (seat.new.token.me.0 ≡ with_joined seat.old.token.me.0 other.token.me.0) }
        ensures gathers { Gathers seat.old.token.me.0.number seat.old.token.me.0.seen other.token.me.0.number other.token.me.0.seen seat.new.token.me.0.seen }
    {
        let Seat {
            number: _,
            splits: _,
            token,
        } = other;
        self.table
            .shared
            .join_seat::<Gather<M>>(&mut seat.token, token);
        // Only a read tells how the two stand in the history.
        self.table.shared.load::<Look<M>>(&mut seat.token, 0);
    }

    /// Takes the value from the slot, which is at home since no other seat is left.
    pub fn close(self, seat: Seat<M>) -> Closed<M>
        requires seat { IsOf self.table.shared.table_id self.table.shared.key.value seat.token }
        requires first { seat.number ≡ 0 }
        requires all { length seat.token.me.0.joined ≡ seat.token.me.0.splits }
        ensures rules { result.rules ≡ self.table.shared.key.value.rules }
        ensures machine { (result.machine ≡ state_at M.next self.table.shared.key.value.rules self.table.shared.key.value.machine result.history.items) × M.good result.rules result.machine }
        ensures history { Ending M.own seat.token.me.0 result.history.items }
    {
        let Desk { table, rules } = self;
        let Seat {
            number: _,
            splits: _,
            token,
        } = seat;
        let mut closed = table.close_with(token);
        let Stored { machine, history } = closed.take(0);
        closed.free();
        Closed {
            rules,
            machine,
            history,
        }
    }

    /// Takes the turn, answers the request, and releases it. With that a call that got a reply stands in the history.
    pub fn call<R: Wait>(
        &self,
        alloc: Global,
        rt: &R,
        seat: &mut Seat<M>,
        request: M::Request,
    ) -> Result<M::Reply, Back<M::Request>>
        requires seat { IsOf self.now.table.shared.table_id self.now.table.shared.key.value seat.old.token }
        requires own { M.own seat.old.number request }
        ensures same { IsOf self.now.table.shared.table_id self.now.table.shared.key.value seat.new.token × (seat.new.number ≡ seat.old.number) × (seat.new.token.id ≡ seat.old.token.id) }
        ensures ok { IfOk result (λ r. Answered M.next M.reply M.good M.own self.now.table.shared.key.value seat.old.token.me.0 request r seat.new.token.me.0) }
        ensures err { IfErr result (λ b. (b.request ≡ request) × (seat.new.token.me.0 ≡ seat.old.token.me.0)) }
    {
        self.take_turn(rt, &mut seat.token);
        let told = self.answer(alloc, &mut seat.token, seat.number, request);
        self.table.shared.store::<Release<M>>(&mut seat.token, 0, 0);
        told
    }
}

// Makes room for one more call, and answers the request. Both may find no memory.
fn answer<M: Machine>(
    alloc: Global,
    stored: &mut Stored<M, M::Request>,
    rules: &M::Rules,
    request: &M::Request,
) -> Result<M::Reply, AllocError>
    requires { M.good rules.now stored.old.machine }
    ensures good { M.good rules.now stored.new.machine }
    ensures history { stored.new.history.items ≡ stored.old.history.items }
    ensures room { OnOk result (vec_len stored.new.history < vec_capacity stored.new.history) }
    ensures ok { IfOk result (λ r. (r ≡ M.reply rules.now stored.old.machine request.now) × (stored.new.machine ≡ M.next rules.now stored.old.machine request.now)) }
    ensures err { OnErr result (stored.new.machine ≡ stored.old.machine) }
{
    stored.history.reserve(1)?;
    stored.machine.answer(alloc, rules, request)
}
