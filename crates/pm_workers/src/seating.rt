//! The seats of a desk: they are split from the first one, and joined to it in the end.
ghost use Rattle.std.specs.Prelude.{◌≡◌, ◌+◌, ◌<◌, ◌^◌, ℕ, [], All, vec_len, IfOk};
ghost use Rattle.pm_desk.specs.Desks.{IsSeatOf, IsWhole, first_seat};
ghost use Rattle.pm_desk.specs.Histories.{state_at};
ghost use Rattle.pm_workers.specs.Seatings.{unused_seats, IsCovered};

use pm_change::Machine;
use pm_desk::{Closed, Desk, Seat};
use std::alloc::{AllocError, Global};

/// As many seats, split from a first seat that has seen nothing. Their numbers are 1, 2, 3 and so on.
pub fn split_all<M: Machine>(
    alloc: Global,
    desk: &Desk<M>,
    first: &mut Seat<M>,
    count: u32,
) -> Result<Vec<Seat<M>>, AllocError>
    requires first { first.old ≡ first_seat desk.now }
    requires room { count + 1 < 2 ^ 32 }
    ensures first { IfOk result (λ v. first.new ≡ record (first_seat desk.now) { splits = count }) }
    ensures seats { IfOk result (λ v. v.items ≡ unused_seats desk.now 1 count) }
{
    let mut seats = Vec::new(alloc);
    for _i in 0..count {
        seats.push(desk.split(first))?;
    }
    Ok(seats)
}

/// Joins the seats to the first one, and closes the desk.
pub fn close_all<M: Machine>(desk: Desk<M>, mut first: Seat<M>, seats: Vec<Seat<M>>) -> Closed<M>
    requires first { IsSeatOf desk first }
    requires number { first.number ≡ 0 }
    requires none { first.joined ≡ [] }
    requires seats { All (λ s. IsSeatOf desk s) seats.items }
    requires all { vec_len seats ≡ first.splits }
    ensures rules { result.rules ≡ desk.opening.rules }
    ensures machine { result.machine ≡ state_at M.next desk.opening.rules desk.opening.machine result.history.items }
    ensures good { M.good result.rules result.machine }
    ensures first { IsCovered result.history.items first }
    ensures seats { All (λ s. IsCovered result.history.items s) seats.items }
    // Each call was made at the first seat or at one that was joined to it.
    ensures callers { (n : ℕ) → 0 < n → All (λ s. s.number < n) seats.items → All (λ past. past.seat < n) result.history.items }
{
    for seat in seats {
        desk.join(&mut first, seat);
    }
    desk.close(first)
}
