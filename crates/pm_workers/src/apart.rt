//! What clients leave that played apart at one desk.
ghost use Rattle.std.specs.Prelude.{◌≡◌, ◌<◌, All, length};
ghost use Rattle.pm_desk.specs.Histories.{state_at};
ghost use Rattle.pm_workers.specs.Seatings.{AreSeats, IsCovered};
ghost use Rattle.pm_workers.specs.Threads.{after_request};

use crate::hiring::Dismissed;
use crate::seating::close_all;
use pm_authority::{Authority, Request};
use pm_change::Change;
use pm_desk::{Closed, Desk, Past};
use pm_session::{Line, Member, Outcome};

/// What clients that played apart leave: the authority with the history of their calls, and of each client in turn the
/// member, the lines and the outcomes.
#[derive(Drop)]
pub(crate) struct Apart<C: Change, O>
where
    C::Rules: Drop,
{
    pub rules: C::Rules,
    pub authority: Authority<C>,
    pub history: Vec<Past<Request<C>>>,
    pub members: Vec<Member<C>>,
    pub lines: Vec<Vec<Line<O, C>>>,
    pub outcomes: Vec<Vec<Outcome<C>>>,
}

/// Closes the desk with the seats that the workers left.
pub(crate) fn close_desk<C: Change, O: Drop>(
    desk: Desk<Authority<C>>,
    left: Dismissed<C, O>,
) -> Apart<C, O>
where
    C::Rules: Drop,
    requires { AreSeats desk left.seats.items }
    ensures rules { result.rules ≡ desk.opening.rules }
    ensures authority { result.authority ≡ state_at (after_request C.means) desk.opening.rules desk.opening.machine result.history.items }
    ensures covered { All (λ s. IsCovered result.history.items s) left.seats.items }
    ensures callers { All (λ past. past.seat < length left.seats.items) result.history.items }
    ensures members { result.members ≡ left.members }
    ensures lines { result.lines ≡ left.lines }
    ensures outcomes { result.outcomes ≡ left.outcomes }
{
    let Dismissed {
        members,
        mut seats,
        lines,
        outcomes,
    } = left;
    let first = seats.remove(0);
    let Closed {
        rules,
        machine,
        history,
    } = close_all(desk, first, seats);
    Apart {
        rules,
        authority: machine,
        history,
        members,
        lines,
        outcomes,
    }
}
