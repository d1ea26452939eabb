//! Cursors, which follow the steps.
ghost use Rattle.std.specs.Prelude.{◌≡◌, IfOk};
ghost use Rattle.pm_map.specs.Positions.{MayLead, EachLed};
ghost use Rattle.pm_client.specs.Cursors.{AreIn, moved_over};

use pm_list::Listed;
use pm_map::{Positions, Side};
use std::alloc::{AllocError, Global};

/// A position, in tokens, that goes over the steps, and its side: what is put in right there comes after it by
/// `Before` and before it by `After`.
#[derive(Clone, Copy, Debug, PartialEq, Eq)]
pub struct Cursor {
    pub pos: u64,
    pub side: Side,
}

/// The cursors where a mapping leads them, each by its side, which it keeps. `positions` tells where positions go over the
/// mapping, which must lead from a document that the cursors are within.
pub fn move_all<P: Positions>(
    alloc: Global,
    cursors: &[Cursor],
    positions: &P,
) -> Result<Listed<Cursor>, AllocError>
    requires { MayLead AreIn P.leads cursors.now positions.now }
    ensures { EachLed AreIn P.leads cursors.now positions.now (λ ms. IfOk result (λ l. l ≡ moved_over ms cursors.now)) }
{
    let mut moved = Listed::new(alloc);
    for cursor in cursors {
        moved.push(Cursor {
            pos: positions.place(cursor.pos, cursor.side).pos,
            side: cursor.side,
        })?;
    }
    Ok(moved)
}
