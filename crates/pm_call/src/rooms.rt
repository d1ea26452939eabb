//! Files of many rooms, played in file order.
ghost use Rattle.std.specs.Prelude.{◌≡◌, ◌++◌, string_bytes, IfOk, OnOk};
ghost use Rattle.pm_script.specs.Held.{Holds};
ghost use Rattle.pm_script.specs.OwnLines.{AllHold};
ghost use Rattle.pm_call.specs.Playing.{report_of};
ghost use Rattle.pm_call.specs.RoomReports.{room_line, rooms_report};

use crate::replaying::replay;
use pm_script::RoomSession;
use std::alloc::{AllocError, Global};

/// For each room in order the line with its name, and the report of its session. What rooms do reaches no other room, so that a
/// room's lines in their order are played as among those of all rooms.
pub fn replay_rooms(alloc: Global, rooms: &[RoomSession]) -> Result<String, AllocError>
    requires { AllHold rooms.now }
    ensures { IfOk result (λ s. string_bytes s ≡ rooms_report rooms.now) }
{
    let mut text = String::new(alloc);
    for room in rooms {
        push_room(alloc, &mut text, room)?;
    }
    Ok(text)
}

/// Appends the line of a room and the report of its session to the text.
fn push_room(alloc: Global, text: &mut String, room: &RoomSession) -> Result<(), AllocError>
    requires { Holds room.now.session }
    ensures { OnOk result (string_bytes text.new ≡ string_bytes text.old ++ room_line room.now.name ++ report_of room.now.session) }
{
    let line = room_line(alloc, room.name.as_str())?;
    text.push_str(line.as_str())?;
    text.push_str(replay(alloc, &room.session)?.as_str())?;
    Ok(())
}

/// The line `room` with a name.
pub fn room_line(alloc: Global, name: &str) -> Result<String, AllocError>
    ensures { IfOk result (λ s. string_bytes s ≡ room_line name.now) }
{
    format!(in alloc; "room {name}\n")
}
