//! Sessions that were made from a number, played.
ghost use Rattle.std.specs.Prelude.{◌≡◌, string_bytes, IfOk};
ghost use Rattle.pm_script.specs.Held.{Holds};
ghost use Rattle.pm_session.specs.Events.{state_of};
ghost use Rattle.pm_call.specs.Summing.{dropped_by, dropped_in, summary_in, summary_of};

use crate::replaying::open;
use pm_apply::DocChange;
use pm_gen::{Asked, summary};
use pm_making::EditMaker;
use pm_script::Session;
use pm_session::{Member, Room};
use std::alloc::{AllocError, Global};

/// The summary of a session that was made from these numbers. Its lines are played in file order, and then its editors settle.
pub fn summarize(alloc: Global, asked: Asked, session: &Session) -> Result<String, AllocError>
    requires { Holds session.now }
    ensures { IfOk result (λ s. string_bytes s ≡ summary_of asked session.now) }
{
    let schema = &session.head.schema;
    let lines = session.lines.as_slice();
    let mut room = open(alloc, session)?;
    let outcomes = room.play_all(alloc, schema, &EditMaker, lines)?;
    drop(outcomes);
    room.settle(alloc, schema)?;
    summary_in(alloc, asked, &room)
}

/// The summary of a room.
fn summary_in(alloc: Global, asked: Asked, room: &Room<DocChange>) -> Result<String, AllocError>
    ensures { IfOk result (λ s. string_bytes s ≡ summary_in asked (state_of room.now)) }
{
    let authority = room.authority();
    let log = authority.log().len() as u64;
    let dropped = dropped_in(room.members());
    let size = authority.doc().size() as u64;
    summary(
        alloc,
        asked.clients,
        asked.rounds,
        asked.number,
        log,
        dropped,
        size,
    )
}

/// How many steps the members dropped together. The count stands still at its type's end.
fn dropped_in(members: &[Member<DocChange>]) -> u64
    ensures { result ≡ dropped_in members.now }
{
    let mut dropped: u64 = 0;
    for member in members {
        dropped = dropped.saturating_add(dropped_by(member));
    }
    dropped
}

fn dropped_by(member: &Member<DocChange>) -> u64
    ensures { result ≡ dropped_by member.now }
{
    match member {
        Member::Editor(client) => client.dropped().len() as u64,
        Member::Raw { name: _, serial: _ } => 0,
    }
}
