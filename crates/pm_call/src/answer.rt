//! What is written for an input.
ghost use Rattle.std.specs.Prelude.{◌≡◌, codes, decimal, string_bytes, IfOk};
ghost use Rattle.pm_report.specs.Words.{◌&◌, line};
ghost use Rattle.pm_call.specs.Files.{form_of};
ghost use Rattle.pm_call.specs.Finding.{found_of, FoundHolds};
ghost use Rattle.pm_call.specs.Output.{IsTextOf, status_for, refusal};

use crate::call::Status;
use crate::finding::Found;
use crate::late::{replay_late, tell_version};
use crate::replaying::replay;
use crate::rooms::replay_rooms;
use crate::selecting::select;
use crate::summing::summarize;
use crate::words::Command;
use pm_script::{Refusal, RoomSession, Session};
use std::alloc::{AllocError, Global};

/// What is to be written, and the status that says so.
#[derive(Drop)]
pub struct Answer {
    pub status: Status,
    pub text: String,
}

/// The answer of a command that takes no threads to what an input was found to be.
pub fn answer_to(alloc: Global, command: Command, found: &Found) -> Result<Answer, AllocError>
    requires alone { command ≡ Command.Run → ⊥ }
    requires apart { command ≡ Command.RunRooms → ⊥ }
    requires holds { FoundHolds (form_of command) found.now }
    ensures text { IfOk result (λ a. IsTextOf command (found_of found.now) (string_bytes a.text)) }
    ensures says { IfOk result (λ a. a.status ≡ status_for (found_of found.now)) }
{
    match found {
        Found::IsSession(session) => Ok(Answer {
            status: Status::Done,
            text: told(alloc, command, session)?,
        }),
        Found::AreRooms(rooms) => Ok(Answer {
            status: Status::Done,
            text: rooms_told(alloc, command, rooms.as_slice())?,
        }),
        Found::Refused(refused) => refusal(alloc, *refused),
    }
}

ghost use Rattle.std.specs.Prelude.{Ok, length};
ghost use Rattle.pm_call.specs.Contents.{one, many};
ghost use Rattle.pm_call.specs.Finding.{FoundSession, FoundRooms};

/// What the command writes of a session.
fn told(alloc: Global, command: Command, session: &Session) -> Result<String, AllocError>
    requires alone { command ≡ Command.Run → ⊥ }
    requires holds { FoundSession (form_of command) session.now }
    ensures { IfOk result (λ s. IsTextOf command (Ok (one session.now)) (string_bytes s)) }
{
    match command {
        Command::Check => counts(alloc, session.lines.len(), session.head.doc.size()),
        Command::Replay => replay(alloc, session),
        Command::Select => select(alloc, session),
        Command::Gen(asked) => summarize(alloc, asked, session),
        Command::Late => replay_late(alloc, session),
        Command::At(version) => tell_version(alloc, version, session),
        Command::Run | Command::Rooms | Command::RunRooms => unreachable!(),
    }
}

/// What the command writes of rooms.
fn rooms_told(alloc: Global, command: Command, rooms: &[RoomSession]) -> Result<String, AllocError>
    requires apart { command ≡ Command.RunRooms → ⊥ }
    requires holds { FoundRooms (form_of command) rooms.now }
    ensures { IfOk result (λ s. IsTextOf command (Ok (many rooms.now)) (string_bytes s)) }
{
    match command {
        Command::Rooms => replay_rooms(alloc, rooms),
        Command::Check
        | Command::Replay
        | Command::Select
        | Command::Run
        | Command::Gen(_)
        | Command::Late
        | Command::At(_)
        | Command::RunRooms => unreachable!(),
    }
}

fn counts(alloc: Global, lines: usize, size: usize) -> Result<String, AllocError>
    ensures { IfOk result (λ s. string_bytes s ≡ line (codes "ok" & decimal lines & decimal size)) }
{
    format!(in alloc; "ok {lines} {size}\n")
}

/// The line that refuses an input.
pub fn refusal(alloc: Global, refused: Refusal) -> Result<Answer, AllocError>
    ensures text { IfOk result (λ a. string_bytes a.text ≡ refusal refused) }
    ensures status { IfOk result (λ a. a.status ≡ Status.SessionRefused) }
{
    let line = refused.line;
    let number = refused.code.number();
    Ok(Answer {
        status: Status::SessionRefused,
        text: format!(in alloc; "refused {line} {number}\n")?,
    })
}
