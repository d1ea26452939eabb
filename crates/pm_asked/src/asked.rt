//! What a line asks.
ghost use Rattle.serde_json.specs.View.{view};
ghost use Rattle.pm_head.specs.Answers.{Gives};
ghost use Rattle.pm_asked.specs.Asked.{word_in, kind_in, event_turn, cursor_in, edit_in, can_in, asked_of, asked_line};

use crate::given::{Given, given_in};
use crate::word::Word;
use pm_head::{Code, LineError, json_line};
use pm_history::Turn;
use pm_map::Side;
use pm_opjson::{EditKind, count_in, event_in, number_in, read_op, side_in, text_in};
use pm_ops::Op;
use pm_schema::Schema;
use serde_json::Value;
use std::alloc::Global;

/// An edit, and the number of the event that it is a part of.
#[derive(Drop)]
pub struct Edit {
    pub op: Op,
    pub event: Option<u32>,
}

/// What a line asks.
#[derive(Drop)]
pub enum Asked {
    /// To edit.
    Edit(Edit),
    /// What this edit would be answered.
    Can(Edit),
    /// To undo an event or to redo one.
    Turn { turn: Turn },
    /// To set a cursor.
    Cursor { pos: u64, side: Side },
    /// For the message that submits the pending steps.
    Compose,
    /// For the message that asks for what is past the version.
    Ask,
    /// To take what an authority answered.
    Take(Given),
    /// For the document.
    Doc,
    /// How the client stands.
    State,
}

/// What a line asks of the client with this ID, or the code of its first fault: the line's length and its JSON come first, then
/// `op`, and then the other fields.
#[tactic(auto, unfolding(crate::specs::Asked::asked_line))]
pub fn asked_line(alloc: Global, schema: &Schema, id: &str, line: &[u8]) -> Result<Asked, LineError>
    ensures { Gives (λ a. a) result (asked_line schema.now.spec id.now line.now) }
{
    let json = json_line(alloc, line)?;
    asked_of(alloc, schema, id, &json)
}

#[tactic(auto, unfolding(crate::specs::Asked::asked_of))]
fn asked_of(alloc: Global, schema: &Schema, id: &str, json: &Value) -> Result<Asked, LineError>
    ensures { Gives (λ a. a) result (asked_of schema.now.spec id.now (view json.now)) }
{
    match word_in(json)? {
        Word::Edit(kind) => {
            let edit = edit_in(alloc, schema, kind, json)?;
            Ok(Asked::Edit(edit))
        }
        Word::Can => can_in(alloc, schema, json),
        Word::Undo => Ok(Asked::Turn { turn: Turn::Undo }),
        Word::Redo => Ok(Asked::Turn { turn: Turn::Redo }),
        Word::UndoEvent => event_turn(json),
        Word::Cursor => cursor_in(json),
        Word::Compose => Ok(Asked::Compose),
        Word::Ask => Ok(Asked::Ask),
        Word::Take => {
            let given = given_in(alloc, schema, id, json)?;
            Ok(Asked::Take(given))
        }
        Word::Doc => Ok(Asked::Doc),
        Word::State => Ok(Asked::State),
    }
}

/// The word that `op` says.
fn word_in(json: &Value) -> Result<Word, LineError>
    ensures { Gives (λ w. w) result (word_in (view json.now)) }
{
    let text = text_in(json, "op")?;
    match Word::named(text) {
        Some(word) => Ok(word),
        None => Err(LineError::Code(Code::UnknownName)),
    }
}

/// The edit of this kind, and its event number.
#[tactic(auto, unfolding(crate::specs::Asked::edit_in))]
fn edit_in(alloc: Global, schema: &Schema, kind: EditKind, json: &Value) -> Result<Edit, LineError>
    ensures { Gives (λ e. e) result (edit_in schema.now.spec kind (view json.now)) }
{
    let op = read_op(alloc, schema, kind, json)?;
    let event = event_in(json)?;
    Ok(Edit { op, event })
}

/// A line that asks what the edit at `edit` would be answered.
#[tactic(auto, unfolding(crate::specs::Asked::can_in))]
fn can_in(alloc: Global, schema: &Schema, json: &Value) -> Result<Asked, LineError>
    ensures { Gives (λ a. a) result (can_in schema.now.spec (view json.now)) }
{
    let Some(inner) = json.get("edit") else {
        return Err(LineError::Code(Code::WrongShape));
    };
    let kind = kind_in(inner)?;
    let edit = edit_in(alloc, schema, kind, inner)?;
    Ok(Asked::Can(edit))
}

/// The kind of edit that `op` says.
fn kind_in(json: &Value) -> Result<EditKind, LineError>
    ensures { Gives (λ k. k) result (kind_in (view json.now)) }
{
    let text = text_in(json, "op")?;
    match EditKind::named(text) {
        Some(kind) => Ok(kind),
        None => Err(LineError::Code(Code::UnknownName)),
    }
}

/// A line that undoes the event of a number.
#[tactic(auto, unfolding(crate::specs::Asked::event_turn))]
fn event_turn(json: &Value) -> Result<Asked, LineError>
    ensures { Gives (λ a. a) result (event_turn (view json.now)) }
{
    let number = count_in(json, "event")?;
    Ok(Asked::Turn {
        turn: Turn::UndoEvent { number },
    })
}

/// A line that sets a cursor.
#[tactic(auto, unfolding(crate::specs::Asked::cursor_in))]
fn cursor_in(json: &Value) -> Result<Asked, LineError>
    ensures { Gives (λ a. a) result (cursor_in (view json.now)) }
{
    let pos = number_in(json, "pos")?;
    let side = side_in(json)?;
    Ok(Asked::Cursor { pos, side })
}
