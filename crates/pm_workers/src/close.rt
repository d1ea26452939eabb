//! A room is closed once its clients have played.
ghost use Rattle.std.specs.Prelude.{IfOk, length, map};
ghost use Rattle.pm_workers.specs.Hired.{HasPlayed};
ghost use Rattle.pm_workers.specs.Orderly.{HasDeskHistory, IsOrderly};

use crate::apart::{Apart, close_desk};
use crate::file::File;
use crate::hands::{deal, pick};
use crate::hiring::dismiss;
use crate::order::merge;
use crate::threaded::Threaded;
use crate::worker::Worker;
use pm_authority::Authority;
use pm_change::Change;
use pm_desk::Desk;
use pm_session::Room;
use std::alloc::{AllocError, Global};

/// Closes the desk with its workers, which have played all their lines, and tells the order of the lines, what became of them,
/// and the room. `file` is that of the session's lines.
///
/// Whichever session it is that they played, it is then the session on one thread in that order, which is the one that the desk's
/// history makes of the lines.
pub fn close_room<C: Change, O: Drop>(
    alloc: Global,
    desk: Desk<Authority<C>>,
    file: &File,
    workers: Vec<Worker<C, O>>,
) -> Result<Threaded<C, O>, AllocError>
where
    C::Rules: Drop,
    requires { HasPlayed C.means desk file.now workers.items }
    ensures orderly { (p : HasPlayed C.means desk file.now workers.items) → IfOk result (λ t. IsOrderly C.means p.makes desk.opening.rules p.doc p.raw p.lines t) }
    ensures history { (p : HasPlayed C.means desk file.now workers.items)
        → IfOk result (λ t. HasDeskHistory C.means desk (map (λ w. w.seat) workers.items) (length p.raw) p.lines t) }
{
    let left = dismiss(alloc, workers)?;
    let Apart {
        rules,
        authority,
        history,
        members,
        lines,
        outcomes,
    } = close_desk(desk, left);
    let order = merge(alloc, history.as_slice(), file.places.as_slice())?;
    let turns = pick(alloc, file.clients.as_slice(), order.as_slice())?;
    Ok(Threaded {
        rules,
        order,
        lines: deal(alloc, turns.as_slice(), lines)?,
        outcomes: deal(alloc, turns.as_slice(), outcomes)?,
        room: Room::of(members, authority),
    })
}
