//! One op line of a file of many rooms.
ghost use Rattle.std.specs.Prelude.{◌≡◌, ◌≤◌, ◌<◌, ◌+◌, ◌^◌, map, nat_eq, position, length, vec_len, IfOk, IfSome, OnOk};
ghost use Rattle.std.specs.Cmp.Lexicographic.{pointwise};
ghost use Rattle.serde_json.specs.View.{view};
ghost use Rattle.pm_head.specs.Answers.{Gives as GivesLine};
ghost use Rattle.pm_script.specs.Answers.{Gives};
ghost use Rattle.pm_script.specs.Sessions.{at_line};
ghost use Rattle.pm_script.specs.Rooms.{room_in, at_place, rooms_with, room_line};
ghost use Rattle.pm_script.specs.OpenRooms.{rooms_of, HaveAtMost};

use crate::open_room::OpenRoom;
use pm_head::{Code, LineError, Refusal, SessionError, json_line};
use pm_opjson::text_in;
use serde_json::Value;
use std::alloc::Global;

/// Adds an op line to the room that it names. Its fault tells its number.
pub(crate) fn add_line(
    alloc: Global,
    rooms: &mut Vec<OpenRoom>,
    last: u32,
    number: u32,
    line: &[u8],
) -> Result<(), SessionError>
    requires few { HaveAtMost number rooms.old.items }
    requires small { number < 2 ^ 32 }
    ensures read { Gives (λ u. rooms_of rooms.new.items) result (at_line number (room_line last (rooms_of rooms.old.items) number line.now)) }
    ensures few { OnOk result (HaveAtMost (number + 1) rooms.new.items) }
    ensures number { OnOk result (number ≤ last) }
{
    match line_into(alloc, rooms, last, number, line) {
        Ok(()) => Ok(()),
        Err(LineError::Code(code)) => Err(SessionError::Refused(Refusal { line: number, code })),
        Err(LineError::NoMemory) => Err(SessionError::NoMemory),
    }
}

/// Adds an op line to the room that it names; else the code of its first fault. `TooManyLines` is decided first, then what its
/// JSON value is, then the room.
#[tactic(auto, unfolding(crate::specs::Rooms::room_line))]
fn line_into(
    alloc: Global,
    rooms: &mut Vec<OpenRoom>,
    last: u32,
    number: u32,
    line: &[u8],
) -> Result<(), LineError>
    requires { HaveAtMost number rooms.old.items }
    ensures read { GivesLine (λ u. rooms_of rooms.new.items) result (room_line last (rooms_of rooms.old.items) number line.now) }
    ensures few { OnOk result (HaveAtMost (number + 1) rooms.new.items) }
    ensures number { OnOk result (number ≤ last) }
{
    if number > last {
        return Err(LineError::Code(Code::TooManyLines));
    }
    let json = json_line(alloc, line)?;
    value_into(alloc, rooms, number, &json)
}

/// Adds the op line that a value is to the room that it names.
#[tactic(auto, unfolding(crate::specs::Rooms::rooms_with))]
fn value_into(
    alloc: Global,
    rooms: &mut Vec<OpenRoom>,
    number: u32,
    json: &Value,
) -> Result<(), LineError>
    requires { HaveAtMost number rooms.old.items }
    ensures read { GivesLine (λ u. rooms_of rooms.new.items) result (rooms_with (rooms_of rooms.old.items) number (view json.now)) }
    ensures few { OnOk result (HaveAtMost (number + 1) rooms.new.items) }
{
    let place = room_in(rooms.as_slice(), json)?;
    add_at(alloc, rooms, place, number, json)
}

/// Adds the op line that a value is to the room at a place.
fn add_at(
    alloc: Global,
    rooms: &mut Vec<OpenRoom>,
    place: usize,
    number: u32,
    json: &Value,
) -> Result<(), LineError>
    requires few { HaveAtMost number rooms.old.items }
    requires within { place < vec_len rooms.old }
    ensures read { GivesLine (λ u. rooms_of rooms.new.items) result (at_place (rooms_of rooms.old.items) place number (view json.now)) }
    ensures few { OnOk result (HaveAtMost (number + 1) rooms.new.items) }
{
    let room = &mut rooms[place];
    room.add(alloc, number, json)
}

/// The place of the room that `room` names.
fn room_in(rooms: &[OpenRoom], json: &Value) -> Result<usize, LineError>
    ensures place { GivesLine (λ i. i) result (room_in (rooms_of rooms.now) (view json.now)) }
    ensures within { IfOk result (λ i. i < length rooms.now) }
{
    let name = text_in(json, "room")?;
    match named(name, rooms) {
        Some(i) => Ok(i),
        None => Err(LineError::Code(Code::NoSuchRoom)),
    }
}

/// The place of the room of this name.
fn named(name: &str, rooms: &[OpenRoom]) -> Option<usize>
    ensures place { result ≡ position (λ r. pointwise nat_eq name.now r.name) (rooms_of rooms.now) }
    ensures within { IfSome result (λ i. i < length rooms.now) }
{
    place_of(name, rooms)
}

#[tactic(auto, using(crate::proofs::Places::places))]
fn place_of(name: &str, rooms: &[OpenRoom]) -> Option<usize>
    ensures place { result ≡ position (λ r. pointwise nat_eq name.now r.name) rooms.now }
    ensures within { IfSome result (λ i. i < length rooms.now) }
{
    rooms.iter().position(|r| name == r.name.as_str())
}
