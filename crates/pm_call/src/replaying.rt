//! Sessions played in file order.
ghost use Rattle.std.specs.Prelude.{◌≡◌, ◌≤◌, length, string_bytes, IfOk};
ghost use Rattle.pm_tokens.specs.Faults.{Valid};
ghost use Rattle.pm_schema.specs.Documents.{documents_of};
ghost use Rattle.pm_apply.specs.Changes.{meaning};
ghost use Rattle.pm_session.specs.Events.{state_of};
ghost use Rattle.pm_session.specs.Sounds.{Sound};
ghost use Rattle.pm_call.specs.Playing.{room_of, playing, report_of};
ghost use Rattle.pm_script.specs.Held.{Holds};

use pm_apply::DocChange;
use pm_head::raw_flags;
use pm_making::EditMaker;
use pm_report::{client_lines, report, with_numbers};
use pm_script::Session;
use pm_session::{Outcome, Room};
use std::alloc::{AllocError, Global};

/// The report of a session, whose lines are played in file order.
pub fn replay(alloc: Global, session: &Session) -> Result<String, AllocError>
    requires { Holds session.now }
    ensures { IfOk result (λ s. string_bytes s ≡ report_of session.now) }
{
    let schema = &session.head.schema;
    let lines = session.lines.as_slice();
    let mut room = open(alloc, session)?;
    let outcomes = room.play_all(alloc, schema, &EditMaker, lines)?;
    report_of(alloc, session, room, outcomes)
}

/// The report of a session whose lines were played in file order, with these outcomes, and left this room.
pub fn report_of(
    alloc: Global,
    session: &Session,
    room: Room<DocChange>,
    outcomes: Vec<Outcome<DocChange>>,
) -> Result<String, AllocError>
    requires sound { Sound meaning session.now.head.schema (state_of room) }
    requires outcomes { outcomes.items ≡ (playing session.now).0 }
    requires room { state_of room ≡ (playing session.now).1 }
    ensures { IfOk result (λ s. string_bytes s ≡ report_of session.now) }
{
    let schema = &session.head.schema;
    let entries = session.head.clients.as_slice();
    let mut room = room;
    let outcomes = with_numbers(alloc, session.lines.as_slice(), outcomes)?;
    let standing = client_lines(alloc, schema, entries, room.members())?;
    room.settle(alloc, schema)?;
    report(alloc, schema, entries, &outcomes, standing.as_str(), &room)
}

/// A room at the session's first document, with its clients.
pub fn open(alloc: Global, session: &Session) -> Result<Room<DocChange>, AllocError>
    requires valid { Valid (documents_of session.now.head.schema.spec) session.now.head.doc }
    requires few { length session.now.head.clients ≤ 32 }
    ensures opens { IfOk result (λ r. state_of r ≡ room_of session.now) }
    ensures sound { IfOk result (λ r. Sound meaning session.now.head.schema (state_of r)) }
{
    let doc = session.head.doc.copy()?;
    let raw = raw_flags(alloc, session.head.clients.as_slice())?;
    Room::new(alloc, &session.head.schema, doc, &raw)
}
