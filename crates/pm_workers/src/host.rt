//! A host that asks a desk.
ghost use Rattle.std.specs.Prelude.{◌≡◌};

use pm_authority::{Answer, Authority, Message, Request};
use pm_change::Change;
use pm_desk::{Desk, Seat};
use pm_io::Gate;
use pm_session::Host;
use std::alloc::{AllocError, Global};
use std::sync::Wait;

/// A desk over an authority, with one client's seat of it. The gate is asked before each call, with the number of the person
/// who plays the client and with how many calls of that person were answered.
pub struct DeskHost<'a, C: Change, G, R>
where
    C::Rules: Drop,
{
    rt: &'a R,
    desk: &'a Desk<Authority<C>>,
    seat: &'a mut Seat<Authority<C>>,
    gate: &'a G,
    person: u32,
    calls: u32,
}

impl<C: Change, G, R> Drop for DeskHost<'_, C, G, R>
where
    C::Rules: Drop,
{
    fn drop(self)
        ensures { self.exit.1.1.0.now ≡ self.entry.seat.now }
    {
        let DeskHost {
            rt: _,
            desk: _,
            seat: _,
            gate: _,
            person: _,
            calls: _,
        } = self;
    }
}

impl<'a, C: Change, G, R> DeskHost<'a, C, G, R>
where
    C::Rules: Drop,
{
    /// A host that asks this desk at this seat, for the person of this number, of whom so many calls were answered before.
    pub fn new(
        rt: &'a R,
        desk: &'a Desk<Authority<C>>,
        seat: &'a mut Seat<Authority<C>>,
        gate: &'a G,
        person: u32,
        calls: u32,
    ) -> DeskHost<'a, C, G, R>
        ensures same_seat { result.seat.ghost_name ≡ seat.entry.ghost_name }
        ensures seat { result.seat.now ≡ seat.old }
        ensures desk { result.desk.now ≡ desk.now }
        ensures calls { result.calls ≡ calls }
    {
        DeskHost {
            rt,
            desk,
            seat,
            gate,
            person,
            calls,
        }
    }

    /// How many calls of the person were answered, with those of this host. The next host of the person goes on from there.
    /// The number stands still at the end of its type.
    pub fn calls(&self) -> u32
        ensures { result ≡ self.now.calls }
    {
        self.calls
    }
}

impl<'a, C: Change, G: Gate, R: Wait> Host<C> for DeskHost<'a, C, G, R>
where
    C::Rules: Drop,
{
    ghost use Rattle.std.specs.Prelude.{◌≡◌, []};
    ghost use Rattle.std.proofs.Common.{refl, sym, append-nil};
    ghost use Rattle.pm_workers.specs.Seats.{SeesMore, authority_after, Serves, Answers, one_more};

    ghost serves = { λ h rules client. Serves C.means h.desk.now h.seat.now rules client };

    ghost first = { λ h. h.desk.now.opening.machine.first };

    ghost log = { λ h. (authority_after C.means h.desk.now h.seat.now.seen).log };

    // The seat has one call more, with the answer at its place, and one call more is counted.
    ghost told = { λ rules h client message answer k. Answers C.means h.desk.now h.seat.now client message answer k.seat.now × (k.calls ≡ one_more h.calls) };

    // It has the same desk and the same seat, which has seen more or as much.
    ghost stays = { λ h k. (k.seat.ghost_name ≡ h.seat.ghost_name) × (k.desk ≡ h.desk) × SeesMore h.seat.now k.seat.now };

    fn present(
        &mut self,
        alloc: Global,
        rules: &C::Rules,
        client: u32,
        message: &Message<C>,
    ) -> Result<Answer<C>, AllocError> {
        let _rules = rules;
        let message = message.copy(alloc)?;
        self.gate.before(self.person, self.calls);
        let request = Request { client, message };
        match self.desk.call(alloc, self.rt, self.seat, request) {
            Ok(answer) => {
                self.calls = self.calls.saturating_add(1);
                Ok(answer)
            }
            Err(_) => Err(AllocError),
        }
    }

    // The desk keeps its authority's document.
    fn end(
        &self,
        _alloc: Global,
        _rules: &C::Rules,
        _client: u32,
    ) -> Result<Option<C::Doc>, AllocError> {
        Ok(None)
    }

    ghost kept = { λ h rules client s. s.log_is };

    ghost rests = { λ h. (refl, refl, (refl, ([], sym (append-nil h.seat.now.seen)))) };
}
