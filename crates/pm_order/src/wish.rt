//! What a line asks of one document.
ghost use Rattle.serde_json.specs.View.{view};
ghost use Rattle.pm_head.specs.Answers.{Gives};
ghost use Rattle.pm_order.specs.Wishes.{submit_in, since_in, doc_in, forget_in, map_in, revert_in, op_in, edit_in, authors_in, wish_in};

use crate::fields::optional_in;
use crate::positions::positions_in;
use crate::word::DocWord;
use pm_apply::DocChange;
use pm_client::Cursor;
use pm_head::{Code, LineError};
use pm_list::Listed;
use pm_opjson::{EditKind, count_in, read_op, steps_in, text_in};
use pm_ops::Op;
use pm_schema::Schema;
use pm_talk::id_in;
use pm_value::Text;
use serde_json::Value;
use std::alloc::Global;

/// What a line asks of one document.
#[derive(Drop)]
pub enum Wish {
    /// To append steps that the client made on the document at the version.
    Submit {
        version: u32,
        id: Text,
        steps: Listed<DocChange>,
    },
    /// For the log from the version on, at most so many entries.
    Since {
        version: u32,
        most: Option<u32>,
    },
    /// For the document, as it is or as it was at a version.
    Doc {
        version: Option<u32>,
    },
    /// To let go what lies before the version.
    Forget {
        version: u32,
    },
    /// For where positions of the document at the version `from` stand in the one at the version `to`.
    Map {
        from: u32,
        to: u32,
        anchors: Listed<Cursor>,
    },
    /// To take back so many steps from the version `from` on, in the client's name.
    Revert {
        id: Text,
        from: u32,
        count: u32,
    },
    /// To make an edit on the document as it is, in the client's name.
    Edit {
        id: Text,
        op: Op,
    },
    /// For who put the document's tokens in since the version.
    Authors {
        from: u32,
    },
}

/// What a line with this word asks of a document of the schema, or the code of its first fault. Fields are read in the order of
/// `Wish`.
pub fn wish_in(
    alloc: Global,
    schema: &Schema,
    word: DocWord,
    json: &Value,
) -> Result<Wish, LineError>
    ensures { Gives (λ w. w) result (wish_in schema.now.spec word (view json.now)) }
{
    match word {
        DocWord::Submit => submit_in(alloc, schema, json),
        DocWord::Since => since_in(json),
        DocWord::Doc => doc_in(json),
        DocWord::Forget => forget_in(json),
        DocWord::Map => map_in(alloc, json),
        DocWord::Revert => revert_in(alloc, json),
        DocWord::Edit => edit_in(alloc, schema, json),
        DocWord::Authors => authors_in(json),
    }
}

/// A line that submits steps.
#[tactic(auto, unfolding(crate::specs::Wishes::submit_in))]
fn submit_in(alloc: Global, schema: &Schema, json: &Value) -> Result<Wish, LineError>
    ensures { Gives (λ w. w) result (submit_in schema.now.spec (view json.now)) }
{
    let version = count_in(json, "version")?;
    let id = id_in(alloc, json)?;
    let steps = steps_in(alloc, schema, json)?;
    Ok(Wish::Submit { version, id, steps })
}

/// A line that asks for the log.
#[tactic(auto, unfolding(crate::specs::Wishes::since_in))]
fn since_in(json: &Value) -> Result<Wish, LineError>
    ensures { Gives (λ w. w) result (since_in (view json.now)) }
{
    let version = count_in(json, "version")?;
    let most = optional_in(json, "most")?;
    Ok(Wish::Since { version, most })
}

/// A line that asks for the document.
#[tactic(auto, unfolding(crate::specs::Wishes::doc_in))]
fn doc_in(json: &Value) -> Result<Wish, LineError>
    ensures { Gives (λ w. w) result (doc_in (view json.now)) }
{
    let version = optional_in(json, "version")?;
    Ok(Wish::Doc { version })
}

/// A line that lets old steps go.
#[tactic(auto, unfolding(crate::specs::Wishes::forget_in))]
fn forget_in(json: &Value) -> Result<Wish, LineError>
    ensures { Gives (λ w. w) result (forget_in (view json.now)) }
{
    let version = count_in(json, "version")?;
    Ok(Wish::Forget { version })
}

/// A line that asks where positions went.
#[tactic(auto, unfolding(crate::specs::Wishes::map_in))]
fn map_in(alloc: Global, json: &Value) -> Result<Wish, LineError>
    ensures { Gives (λ w. w) result (map_in (view json.now)) }
{
    let from = count_in(json, "from")?;
    let to = count_in(json, "to")?;
    let anchors = positions_in(alloc, json)?;
    Ok(Wish::Map { from, to, anchors })
}

/// A line that takes steps back.
#[tactic(auto, unfolding(crate::specs::Wishes::revert_in))]
fn revert_in(alloc: Global, json: &Value) -> Result<Wish, LineError>
    ensures { Gives (λ w. w) result (revert_in (view json.now)) }
{
    let id = id_in(alloc, json)?;
    let from = count_in(json, "from")?;
    let count = count_in(json, "count")?;
    Ok(Wish::Revert { id, from, count })
}

/// A line that makes an edit, which `edit` holds as an edit's own line has it.
#[tactic(auto, unfolding(crate::specs::Wishes::edit_in))]
fn edit_in(alloc: Global, schema: &Schema, json: &Value) -> Result<Wish, LineError>
    ensures { Gives (λ w. w) result (edit_in schema.now.spec (view json.now)) }
{
    let id = id_in(alloc, json)?;
    let Some(inner) = json.get("edit") else {
        return Err(LineError::Code(Code::WrongShape));
    };
    let op = op_in(alloc, schema, inner)?;
    Ok(Wish::Edit { id, op })
}

/// One of the fourteen edits, by its `op`.
#[tactic(auto, unfolding(crate::specs::Wishes::op_in))]
fn op_in(alloc: Global, schema: &Schema, json: &Value) -> Result<Op, LineError>
    ensures { Gives (λ o. o) result (op_in schema.now.spec (view json.now)) }
{
    let text = text_in(json, "op")?;
    let Some(kind) = EditKind::named(text) else {
        return Err(LineError::Code(Code::UnknownName));
    };
    read_op(alloc, schema, kind, json)
}

/// A line that asks who put tokens in.
#[tactic(auto, unfolding(crate::specs::Wishes::authors_in))]
fn authors_in(json: &Value) -> Result<Wish, LineError>
    ensures { Gives (λ w. w) result (authors_in (view json.now)) }
{
    let from = count_in(json, "from")?;
    Ok(Wish::Authors { from })
}
