//! Files of many rooms whose people have threads of their own.
ghost use Rattle.std.specs.Prelude.{◌≡◌, ◌++◌, ℕ, List, All, map, length, vec_len, string_bytes, IfOk, OnOk};
ghost use Rattle.pm_apply.specs.Changes.{meaning};
ghost use Rattle.pm_session.specs.Events.{state_of};
ghost use Rattle.pm_session.specs.Sounds.{Sound};
ghost use Rattle.pm_script.specs.OwnLines.{AllHold};
ghost use Rattle.pm_call.specs.Finding.{found_of, FoundHolds};
ghost use Rattle.pm_call.specs.Output.{IsTextOf, status_for};
ghost use Rattle.pm_call.specs.declared.words.Command.TheVariants.{RunRooms};
ghost use Rattle.pm_call.specs.Handing.{entry_of, opening_in, opening_of, EntriesTold};
ghost use Rattle.pm_call.specs.RoomReports.{room_line};
ghost use Rattle.pm_call.specs.RoomRuns.{AreRun};
ghost use Rattle.pm_call.specs.Running.{IsTold};

use crate::answer::{Answer, refusal};
use crate::call::Status;
use crate::files::FileForm;
use crate::finding::Found;
use crate::rooms::room_line;
use crate::running::told;
use pm_apply::DocChange;
use pm_head::{ClientEntry, Head, raw_flags};
use pm_io::Gate;
use pm_list::Listed;
use pm_making::EditMaker;
use pm_ops::Op;
use pm_rooms::{NewRoom, play_rooms_on_threads};
use pm_script::{RoomSession, Session};
use pm_value::Text;
use pm_workers::{Crew, Threaded};
use std::alloc::{AllocError, Global};
use std::sync::Wait;
use std::thread::Threads;

/// A room's name and its clients, which its part of the output tells.
#[derive(Drop)]
pub struct Entry {
    pub name: Text,
    pub clients: Listed<ClientEntry>,
}

/// Rooms that are to be played, and their entries.
#[derive(Drop)]
struct Parted {
    entries: Vec<Entry>,
    rooms: Vec<NewRoom<DocChange, Op>>,
}

/// The answer of `runrooms` to what an input was found to be.
pub fn answer_rooms_on_threads<G, T>(
    alloc: Global,
    crew: &Crew<EditMaker, G, T>,
    found: Found,
) -> Result<Answer, AllocError>
where
    G: Gate + Sync,
    T: Threads + Wait + Sync,
    requires { FoundHolds FileForm.ManyRooms found }
    ensures text { IfOk result (λ a. IsTextOf RunRooms (found_of found) (string_bytes a.text)) }
    ensures says { IfOk result (λ a. a.status ≡ status_for (found_of found)) }
{
    match found {
        Found::IsSession(session) => {
            drop(session);
            unreachable!()
        }
        Found::AreRooms(rooms) => Ok(Answer {
            status: Status::Done,
            text: run_rooms(alloc, crew, rooms)?,
        }),
        Found::Refused(refused) => refusal(alloc, refused),
    }
}

/// For each room in order the line with its name, the order of its lines, and its report, where each person plays by a thread of
/// its own in all rooms. Clients of one name, in whichever rooms, are one person; the persons are numbered in the order in which
/// their names first appear.
fn run_rooms<G, T>(
    alloc: Global,
    crew: &Crew<EditMaker, G, T>,
    rooms: Vec<RoomSession>,
) -> Result<String, AllocError>
where
    G: Gate + Sync,
    T: Threads + Wait + Sync,
    requires { AllHold rooms.items }
    ensures { IfOk result (λ s. AreRun rooms.items (string_bytes s)) }
{
    let Parted { entries, rooms } = part(alloc, rooms)?;
    // Line 1 lists 16 rooms at most, so this never comes.
    if rooms.len() > u32::MAX as usize {
        return Err(AllocError);
    }
    let played = play_rooms_on_threads(alloc, crew, rooms)?;
    tell_rooms(alloc, &entries, played)
}

/// The rooms as they are to be played, and their entries.
fn part(alloc: Global, rooms: Vec<RoomSession>) -> Result<Parted, AllocError>
    ensures entries { IfOk result (λ p. p.entries.items ≡ map entry_of rooms.items) }
    ensures rooms { IfOk result (λ p. map opening_of p.rooms.items ≡ map opening_in rooms.items) }
{
    let mut names = Vec::new(alloc);
    let mut entries = Vec::new(alloc);
    let mut parted = Vec::new(alloc);
    for room in rooms {
        let (entry, room) = part_one(alloc, &mut names, room)?;
        entries.push(entry)?;
        parted.push(room)?;
    }
    Ok(Parted {
        entries,
        rooms: parted,
    })
}

/// A room as it is to be played, and its entry. The names of people who are new in it are put after the others.
fn part_one(
    alloc: Global,
    names: &mut Vec<Text>,
    room: RoomSession,
) -> Result<(Entry, NewRoom<DocChange, Op>), AllocError>
    ensures entry { IfOk result (λ p. p.0 ≡ entry_of room) }
    ensures room { IfOk result (λ p. opening_of p.1 ≡ opening_in room) }
{
    let RoomSession { name, session } = room;
    let Session { head, lines } = session;
    let Head {
        schema,
        doc,
        clients,
    } = head;
    let raw = raw_flags(alloc, clients.as_slice())?;
    let people = people_of(alloc, names, clients.as_slice())?;
    let room = NewRoom {
        rules: schema,
        doc,
        raw,
        people,
        lines: lines.into_vec(),
    };
    Ok((Entry { name, clients }, room))
}

/// Of each client the number of its person, which is the place of its name among the names so far. A new name is put after
/// them.
fn people_of(
    alloc: Global,
    names: &mut Vec<Text>,
    clients: &[ClientEntry],
) -> Result<Vec<u32>, AllocError> {
    let mut people = Vec::new(alloc);
    for client in clients {
        people.push(person_of(alloc, names, client.name.as_str())?)?;
    }
    Ok(people)
}

fn person_of(alloc: Global, names: &mut Vec<Text>, name: &str) -> Result<u32, AllocError> {
    let place = match names.iter().position(|other| other.as_str() == name) {
        Some(place) => place,
        None => {
            names.push(Text::from_str(alloc, name)?)?;
            names.len() - 1
        }
    };
    u32::try_from(place).map_err(|_| AllocError)
}

/// What is told of each room that was played, after the line with its name.
fn tell_rooms(
    alloc: Global,
    entries: &[Entry],
    played: Vec<Threaded<DocChange, Op>>,
) -> Result<String, AllocError>
    requires sound { All (λ t. Sound meaning t.rules (state_of t.room)) played.items }
    requires count { length entries.now ≡ vec_len played }
    ensures { IfOk result (λ s. EntriesTold entries.now played.items (string_bytes s)) }
{
    let mut text = String::new(alloc);
    let mut rest = played.into_iter();
    for entry in entries {
        let Some(room) = rest.next() else {
            return Ok(text);
        };
        push_told(alloc, &mut text, entry, room)?;
    }
    Ok(text)
}

/// Appends the line of a room and what is told of it to the text.
fn push_told(
    alloc: Global,
    text: &mut String,
    entry: &Entry,
    played: Threaded<DocChange, Op>,
) -> Result<(), AllocError>
    requires { Sound meaning played.rules (state_of played.room) }
    ensures { OnOk result ((part : List ℕ)
        × IsTold entry.now.clients played.rules played.lines.items played.outcomes.items (state_of played.room) part
        × (string_bytes text.new ≡ string_bytes text.old ++ (room_line entry.now.name ++ part))) }
{
    let line = room_line(alloc, entry.name.as_str())?;
    text.push_str(line.as_str())?;
    text.push_str(told(alloc, entry.clients.as_slice(), played)?.as_str())?;
    Ok(())
}
