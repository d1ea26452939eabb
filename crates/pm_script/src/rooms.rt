//! The rooms that an input is, each with its session.
ghost use Rattle.std.specs.Prelude.{◌≡◌, ◌≤◌, ◌<◌, ◌+◌, ◌*◌, ◌^◌, length, drop, map, vec_len, IfOk, Ok};
ghost use Rattle.pm_head.specs.Answers.{Reads};
ghost use Rattle.pm_head.specs.Lines.{lines_of};
ghost use Rattle.pm_script.specs.Answers.{Gives};
ghost use Rattle.pm_script.specs.Rooms.{HeadBehind, AreOpened, AfterNames, RoomsOf, RoomsAre, rooms_behind, last_head};
ghost use Rattle.pm_script.specs.OwnLines.{AreOfOwnLines, AllHold};
ghost use Rattle.pm_script.specs.OpenRooms.{room_of, rooms_of, HaveAtMost};

use crate::open_room::OpenRoom;
use crate::room_lines::add_line;
use crate::session::{MAX_INPUT, Session};
use pm_head::{
    Code, Form, Head, LineError, Refusal, SessionError, first_line, read_head, rooms_line,
};
use pm_value::Text;
use std::alloc::{AllocError, Global};

/// The greatest number of op lines of a file of many rooms.
const MAX_OPS: u32 = 100_000;

/// A room of a file of many.
#[derive(Drop)]
pub struct RoomSession {
    /// Its name: 1 to 16 characters of `a` to `z` and `0` to `9`. No two rooms of a file have one name.
    pub name: Text,
    /// Its schema, its first document and its clients, and its own op lines in file order. Their numbers are those of the
    /// file's lines.
    pub session: Session,
}

/// The rooms that an input is, in the order in which line 1 lists them. Each room is the session of its own lines: of its three,
/// and of the op lines that name it.
///
/// # Errors
///
/// The least faulty line with the code of its first fault.
/// - Line 0: `InputTooLong`, where the input passes `MAX_INPUT` bytes.
/// - Line 1: as `rooms_line` reads it.
/// - The three lines of each room after it, a schema, a document and the clients: as by `read_head`, where every client is there
///   from the first line on; one that is missing is `MissingLine`.
/// - An op line after them: as of `read_session`, read by its room and after its room's earlier ones. Its `room` is read first:
///   `WrongShape` where there is no text, `NoSuchRoom` where it names no room. The 100,001st op line is `TooManyLines`.
pub fn read_rooms(alloc: Global, input: &[u8]) -> Result<Vec<RoomSession>, SessionError>
    ensures read { Reads (λ v. v.items) (RoomsAre input.now) result }
    ensures own { IfOk result (λ v. AreOfOwnLines input.now v.items) }
    ensures holds { IfOk result (λ v. AllHold v.items) }
{
    read_in(alloc, input)
}

fn read_in(alloc: Global, input: &[u8]) -> Result<Vec<RoomSession>, SessionError>
    ensures { Reads (λ v. v.items) (RoomsAre input.now) result }
{
    if input.len() > MAX_INPUT {
        return Err(SessionError::Refused(Refusal {
            line: 0,
            code: Code::InputTooLong,
        }));
    }
    rooms_of(alloc, input)
}

fn rooms_of(alloc: Global, input: &[u8]) -> Result<Vec<RoomSession>, SessionError>
    ensures { Reads (λ v. v.items) (RoomsOf (lines_of input.now)) result }
{
    let Some((line, rest)) = first_line(input) else {
        return Err(SessionError::Refused(Refusal {
            line: 1,
            code: Code::MissingLine,
        }));
    };
    match rooms_line(alloc, line) {
        Ok(names) => after_names(alloc, names.as_slice(), rest),
        Err(LineError::Code(code)) => Err(SessionError::Refused(Refusal { line: 1, code })),
        Err(LineError::NoMemory) => Err(SessionError::NoMemory),
    }
}

/// The rooms of these names, after line 1.
fn after_names(
    alloc: Global,
    names: &[Text],
    input: &[u8],
) -> Result<Vec<RoomSession>, SessionError>
    requires { length names.now ≤ 16 }
    ensures { Reads (λ v. v.items) (AfterNames names.now (lines_of input.now)) result }
{
    match open_rooms(alloc, names, input) {
        Ok((rooms, rest)) => {
            let head = 3 * names.len() as u32 + 1;
            with_lines(alloc, rooms, head + 1, head + MAX_OPS, rest)
        }
        Err(error) => Err(error),
    }
}

/// The rooms of these names by their heads, and the rest of the input after those.
fn open_rooms<'a>(
    alloc: Global,
    names: &[Text],
    input: &'a [u8],
) -> Result<(Vec<OpenRoom>, &'a [u8]), SessionError>
    requires { length names.now ≤ 16 }
    ensures read { Reads (λ p. rooms_of p.0.items) (AreOpened names.now 1 (lines_of input.now)) result }
    ensures rest { IfOk result (λ p. lines_of p.1.now ≡ drop (3 * length names.now) (lines_of input.now)) }
    ensures none { IfOk result (λ p. HaveAtMost 0 p.0.items) }
{
    let mut rooms = Vec::new(alloc);
    let mut rest = input;
    let mut line = 1;
    for name in names {
        let (head, after) = head_behind(alloc, line, rest)?;
        rooms.push(OpenRoom::new(alloc, name, head)?)?;
        rest = after;
        line += 3;
    }
    Ok((rooms, rest))
}

/// The head that stands after a line of the file, and the rest of the input.
fn head_behind(alloc: Global, line: u32, input: &[u8]) -> Result<(Head, &[u8]), SessionError>
    requires { line < 2 ^ 31 }
    ensures read { Reads (λ p. p.0) (HeadBehind line (lines_of input.now)) result }
    ensures rest { IfOk result (λ p. lines_of p.1.now ≡ drop 3 (lines_of input.now)) }
    ensures few { IfOk result (λ p. length p.0.clients ≤ 32) }
{
    match read_head(alloc, Form::Plain, input) {
        Ok(read) => Ok(read),
        Err(SessionError::Refused(refusal)) => Err(SessionError::Refused(Refusal {
            line: line + refusal.line,
            code: refusal.code,
        })),
        Err(SessionError::NoMemory) => Err(SessionError::NoMemory),
    }
}

/// The rooms with the op lines from this number on, each in the room that it names.
fn with_lines(
    alloc: Global,
    rooms: Vec<OpenRoom>,
    first: u32,
    last: u32,
    input: &[u8],
) -> Result<Vec<RoomSession>, SessionError>
    requires none { HaveAtMost 0 rooms.items }
    requires last { last < 2 ^ 31 }
    requires first { first ≤ last }
    ensures { Gives (λ v. v.items) result (rooms_behind last (rooms_of rooms.items) first (lines_of input.now)) }
{
    let mut rooms = rooms;
    let mut rest = input;
    let mut number = first;
    while let Some((line, after)) = first_line(rest) {
        add_line(alloc, &mut rooms, last, number, line)?;
        rest = after;
        number += 1;
    }
    Ok(sessions(alloc, rooms)?)
}

/// The rooms with their sessions.
fn sessions(alloc: Global, rooms: Vec<OpenRoom>) -> Result<Vec<RoomSession>, AllocError>
    ensures { IfOk result (λ v. v.items ≡ rooms_of rooms.items) }
{
    let mut sessions = Vec::new(alloc);
    for room in rooms {
        sessions.push(room.into_session())?;
    }
    Ok(sessions)
}
