//! The lines that the tests play.
ghost use Rattle.std.specs.Prelude.{◌≡◌, IfOk};
ghost use Rattle.tests_rooms.specs.TwoRooms.{the_lines};

use pm_flat::{Letters, Replace};
use pm_rooms::RoomLine;
use pm_session::{Act, Line};
use std::alloc::{AllocError, Global};

/// The editor of each room types a letter, and the one of room 1 pushes it.
pub(crate) fn lines(alloc: Global) -> Result<Vec<RoomLine<Letters, Replace>>, AllocError>
    ensures { IfOk result (λ v. v.items ≡ the_lines) }
{
    let in_x = RoomLine {
        room: 0,
        line: Line {
            number: 8,
            client: 0,
            act: Act::Edit {
                op: Letters::new(alloc, "A")?,
                event: None,
            },
        },
    };
    let in_y = RoomLine {
        room: 1,
        line: Line {
            number: 9,
            client: 0,
            act: Act::Edit {
                op: Letters::new(alloc, "B")?,
                event: None,
            },
        },
    };
    let push = RoomLine {
        room: 1,
        line: Line {
            number: 10,
            client: 0,
            act: Act::Push { lost: false },
        },
    };
    Ok(vec![in alloc; in_x, in_y, push]?)
}
