//! Acts that are local to a client.
ghost use Rattle.std.specs.Prelude.{◌≡◌, ◌<◌, ◌≤◌, ◌^◌, length, Some, Ok, IfOk, IfErr, IfSome, OnErr};
ghost use Rattle.pm_change.specs.Changes.{fold};
ghost use Rattle.pm_client.specs.Clients.{edited, IsRefusal, undone_last, redone_last, undone_event};
ghost use Rattle.pm_client.specs.Cursors.{AreWithin};
ghost use Rattle.pm_client.specs.Kins.{Stands};
ghost use Rattle.pm_session.specs.Events.{edits, turns, sets, composes, takes};

use crate::maker::{Made, Maker};
use crate::outcome::Outcome;
use pm_change::{Change, MakeError, NoStep};
use pm_client::{Client, CursorError, EditError, MessageKind, UndoError};
use pm_map::Side;
use std::alloc::{AllocError, Global};

/// The client makes the steps of an op, as part of an event of this number. Running out of memory leaves it as it was.
pub fn edit<C: Change, K: Maker<C>>(
    alloc: Global,
    rules: &C::Rules,
    maker: &K,
    client: &mut Client<C>,
    op: &K::Op,
    event: Option<u32>,
) -> Result<Outcome<C>, AllocError>
    requires good { C.means.is_good rules.now client.old.doc }
    requires cursors { AreWithin (C.means.size client.old.doc) client.old.cursors }
    ensures edits { IfOk result (λ o. (o, client.new) ≡ edits C.means rules.now client.old event (K.makes maker.now rules.now client.old.doc op.now)) }
    ensures err { OnErr result (client.new ≡ client.old) }
{
    let made = match maker.steps(alloc, rules, client.doc(), op) {
        Ok(made) => made,
        Err(MakeError::NoStep(reason)) => return Ok(Outcome::NoStep(reason)),
        Err(MakeError::NoMemory) => return Err(AllocError),
    };
    match edit_by(alloc, rules, client, made, event) {
        Ok(count) => Ok(Outcome::Made { count }),
        Err(EditError::Refused { index, reason }) => Ok(Outcome::Refused { index, reason }),
        Err(EditError::NoMemory) => Err(AllocError),
    }
}

/// The client makes the steps that a maker gave.
fn edit_by<C: Change>(
    alloc: Global,
    rules: &C::Rules,
    client: &mut Client<C>,
    made: Made<C>,
    event: Option<u32>,
) -> Result<u64, EditError<C::Reason>>
    requires some { 0 < length made.steps.items }
    requires good { C.means.is_good rules.now client.old.doc }
    requires cursors { AreWithin (C.means.size client.old.doc) client.old.cursors }
    requires leads { IfSome made.end (λ end. fold C.means rules.now client.old.doc made.steps.items ≡ Some end) }
    ensures count { IfOk result (λ n. n ≡ length made.steps.items) }
    ensures made { IfOk result (λ n. edited C.means rules.now client.old made.steps.items event ≡ Ok client.new) }
    ensures refused { IfErr result (IsRefusal C.means rules.now (edited C.means rules.now client.old made.steps.items event)) }
    ensures err { OnErr result (client.new ≡ client.old) }
{
    let Made { steps, end } = made;
    match end {
        Some(end) => client.edit_to(alloc, rules, steps, end, event),
        None => client.edit(alloc, rules, steps, event),
    }
}

/// The client undoes the last event that it can undo, or tells that there is none. Running out of memory leaves it as it was.
/// ProseMirror: `undo`.
pub fn undo<C: Change>(
    alloc: Global,
    rules: &C::Rules,
    client: &mut Client<C>,
) -> Result<Outcome<C>, AllocError>
    requires stands { Stands C.means rules.now client.old }
    ensures undoes { IfOk result (λ o. (o, client.new) ≡ turns client.old (undone_last C.means rules.now client.old)) }
    ensures err { OnErr result (client.new ≡ client.old) }
{
    match client.undo(alloc, rules) {
        Ok(count) => Ok(Outcome::Made { count }),
        Err(UndoError::NothingToUndo) => Ok(Outcome::Nothing),
        Err(UndoError::NoMemory) => Err(AllocError),
    }
}

/// The client redoes the last event that was undone, as `undo` undoes one.
/// ProseMirror: `redo`.
pub fn redo<C: Change>(
    alloc: Global,
    rules: &C::Rules,
    client: &mut Client<C>,
) -> Result<Outcome<C>, AllocError>
    requires stands { Stands C.means rules.now client.old }
    ensures redoes { IfOk result (λ o. (o, client.new) ≡ turns client.old (redone_last C.means rules.now client.old)) }
    ensures err { OnErr result (client.new ≡ client.old) }
{
    match client.redo(alloc, rules) {
        Ok(count) => Ok(Outcome::Made { count }),
        Err(UndoError::NothingToUndo) => Ok(Outcome::Nothing),
        Err(UndoError::NoMemory) => Err(AllocError),
    }
}

/// The client undoes the last event of this number that it can undo, or tells that there is none, as `undo` undoes the last.
pub fn undo_event<C: Change>(
    alloc: Global,
    rules: &C::Rules,
    client: &mut Client<C>,
    event: u32,
) -> Result<Outcome<C>, AllocError>
    requires stands { Stands C.means rules.now client.old }
    ensures undoes { IfOk result (λ o. (o, client.new) ≡ turns client.old (undone_event C.means rules.now client.old event)) }
    ensures err { OnErr result (client.new ≡ client.old) }
{
    match client.undo_event(alloc, rules, event) {
        Ok(count) => Ok(Outcome::Made { count }),
        Err(UndoError::NothingToUndo) => Ok(Outcome::Nothing),
        Err(UndoError::NoMemory) => Err(AllocError),
    }
}

/// The client sets a cursor, or tells that the position passes the document's size. Running out of memory leaves it as it
/// was.
pub fn set_cursor<C: Change>(
    client: &mut Client<C>,
    pos: u64,
    side: Side,
) -> Result<Outcome<C>, AllocError>
    requires { C.means.size client.old.doc < 2 ^ 32 }
    ensures sets { IfOk result (λ o. (o, client.new) ≡ sets C.means client.old pos side) }
    ensures err { OnErr result (client.new ≡ client.old) }
{
    match client.set_cursor(pos, side) {
        Ok(()) => Ok(Outcome::CursorAt { pos }),
        Err(CursorError::Range) => Ok(Outcome::NoStep(NoStep::Range)),
        Err(CursorError::NoMemory) => Err(AllocError),
    }
}

/// The client composes a message. Running out of memory leaves it as it was.
pub fn compose<C: Change>(
    alloc: Global,
    client: &mut Client<C>,
    kind: MessageKind,
) -> Result<Outcome<C>, AllocError>
    ensures composes { IfOk result (λ o. (o, client.new) ≡ composes client.old kind) }
    ensures err { OnErr result (client.new ≡ client.old) }
{
    let number = client.compose(alloc, kind)?;
    Ok(Outcome::Composed { number })
}

/// The client takes the answer of this number, which was kept. Running out of memory leaves it as it was.
pub fn take<C: Change>(
    alloc: Global,
    rules: &C::Rules,
    client: &mut Client<C>,
    answer: u64,
) -> Result<Outcome<C>, AllocError>
    requires stands { Stands C.means rules.now client.old }
    requires named { (0 < answer) × (answer ≤ length client.old.answers) }
    ensures takes { IfOk result (λ o. (o, client.new) ≡ takes C.means rules.now client.old answer) }
    ensures err { OnErr result (client.new ≡ client.old) }
{
    let taken = client.take(alloc, rules, answer)?;
    Ok(Outcome::Took { taken })
}
