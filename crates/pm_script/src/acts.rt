//! What op lines do.
ghost use Rattle.serde_json.specs.View.{view};
ghost use Rattle.pm_head.specs.Answers.{Gives};
ghost use Rattle.pm_script.specs.Acts.{edit_in, cursor_in, forge_in, act_in};

use crate::word::Word;
use pm_apply::DocChange;
use pm_head::LineError;
use pm_opjson::{EditKind, count_in, event_in, lost_in, number_in, read_op, side_in, steps_in};
use pm_ops::Op;
use pm_schema::Schema;
use pm_session::Act;
use serde_json::Value;
use std::alloc::Global;

/// What a line does that says this word, by the line's fields.
pub(crate) fn act_in(
    alloc: Global,
    schema: &Schema,
    word: Word,
    json: &Value,
) -> Result<Act<Op, DocChange>, LineError>
    ensures { Gives (λ a. a) result (act_in schema.now.spec word (view json.now)) }
{
    match word {
        Word::Edit(kind) => edit_in(alloc, schema, kind, json),
        Word::Undo => Ok(Act::Undo),
        Word::Redo => Ok(Act::Redo),
        Word::UndoEvent => {
            let event = count_in(json, "event")?;
            Ok(Act::UndoEvent { event })
        }
        Word::Cursor => cursor_in(json),
        Word::Submit => Ok(Act::Submit),
        Word::Ask => Ok(Act::Ask),
        Word::Present => {
            let message = number_in(json, "message")?;
            Ok(Act::Present { message })
        }
        Word::Take => {
            let answer = number_in(json, "answer")?;
            Ok(Act::Take { answer })
        }
        Word::Push => {
            let lost = lost_in(json)?;
            Ok(Act::Push { lost })
        }
        Word::Pull => {
            let lost = lost_in(json)?;
            Ok(Act::Pull { lost })
        }
        Word::Forge => forge_in(alloc, schema, json),
        Word::Enter => Ok(Act::Enter),
    }
}

/// A line that edits the document, which may have an event number.
#[tactic(auto, unfolding(crate::specs::Acts::edit_in))]
fn edit_in(
    alloc: Global,
    schema: &Schema,
    kind: EditKind,
    json: &Value,
) -> Result<Act<Op, DocChange>, LineError>
    ensures { Gives (λ a. a) result (edit_in schema.now.spec kind (view json.now)) }
{
    let op = read_op(alloc, schema, kind, json)?;
    let event = event_in(json)?;
    Ok(Act::Edit { op, event })
}

/// A line that sets a cursor.
#[tactic(auto, unfolding(crate::specs::Acts::cursor_in))]
fn cursor_in(json: &Value) -> Result<Act<Op, DocChange>, LineError>
    ensures { Gives (λ a. a) result (cursor_in (view json.now)) }
{
    let pos = number_in(json, "pos")?;
    let side = side_in(json)?;
    Ok(Act::Cursor { pos, side })
}

/// A line of a raw client, which presents these steps at this version.
#[tactic(auto, unfolding(crate::specs::Acts::forge_in))]
fn forge_in(alloc: Global, schema: &Schema, json: &Value) -> Result<Act<Op, DocChange>, LineError>
    ensures { Gives (λ a. a) result (forge_in schema.now.spec (view json.now)) }
{
    let version = number_in(json, "version")?;
    let steps = steps_in(alloc, schema, json)?;
    Ok(Act::Forge { version, steps })
}
