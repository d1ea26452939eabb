//! All rooms are closed once their people have played.
ghost use Rattle.std.specs.Prelude.{IfOk};
ghost use Rattle.pm_rooms.specs.Handed.{Matched};
ghost use Rattle.pm_rooms.specs.Played.{HallPlayed, RoomIsOrderly};

use pm_authority::Authority;
use pm_change::Change;
use pm_desk::Desk;
use pm_workers::{File, Threaded, Worker, close_room};
use std::alloc::{AllocError, Global};
use std::mem;

/// Closes each of these desks with its workers, which stand room by room.
pub(crate) fn close_all<C: Change, O: Drop>(
    alloc: Global,
    mut desks: Vec<Desk<Authority<C>>>,
    files: &[File],
    mut workers: Vec<Worker<C, O>>,
) -> Result<Vec<Threaded<C, O>>, AllocError>
where
    C::Rules: Drop,
    requires { HallPlayed C.means desks.items files.now workers.items }
    ensures { (p : HallPlayed C.means desks.items files.now workers.items) → IfOk result (λ v. Matched (λ room t. RoomIsOrderly C.means p.makes room t) p.rooms v.items) }
{
    let mut rooms = Vec::new(alloc);
    for file in files {
        let desk = desks.remove(0);
        let later = workers.split_off(file.places.len())?;
        let own = mem::replace(&mut workers, later);
        rooms.push(close_room(alloc, desk, file, own)?)?;
    }
    Ok(rooms)
}
