//! What a line asks.
ghost use Rattle.std.specs.Prelude.{◌≡◌};
ghost use Rattle.serde_json.specs.View.{view};
ghost use Rattle.pm_head.specs.Answers.{Gives};
ghost use Rattle.pm_talk.specs.Asked.{submit_in, since_in, most_in, asked_of, asked_line, word_in, word_named};

use crate::at_once::asked_at_once;
use crate::fields::id_in;
use pm_apply::DocChange;
use pm_docjson::field;
use pm_head::{Code, LineError, json_line};
use pm_json::JsonRef;
use pm_list::Listed;
use pm_opjson::{count_in, steps_in, text_in};
use pm_schema::Schema;
use pm_slicejson::as_count;
use pm_value::Text;
use serde_json::Value;
use std::alloc::Global;

/// What a line asks.
#[derive(Drop)]
pub enum Asked {
    /// To append steps that the client made on the document at the version.
    Submit {
        version: u32,
        id: Text,
        steps: Listed<DocChange>,
    },
    /// For the log from the version on, or at most so many of its entries.
    Since {
        version: u32,
        most: Option<u32>,
    },
    /// For the document.
    Doc,
}

/// What a line asks, or the code of its first fault: the line's length and its JSON come first, then `op`, and then the fields
/// in the order of `Asked`.
#[tactic(auto, unfolding(crate::specs::Asked::asked_line))]
pub(crate) fn asked_line(alloc: Global, schema: &Schema, line: &[u8]) -> Result<Asked, LineError>
    ensures { Gives (λ a. a) result (asked_line schema.now.spec line.now) }
{
    if let Some(asked) = asked_at_once(alloc, schema, line)? {
        return Ok(asked);
    }
    let json = json_line(alloc, line)?;
    asked_of(alloc, schema, &json)
}

/// The words of lines.
#[derive(Clone, Copy, Debug, PartialEq, Eq)]
pub(crate) enum Word {
    Submit,
    Since,
    Doc,
}

#[tactic(auto, unfolding(crate::specs::Asked::asked_of))]
fn asked_of(alloc: Global, schema: &Schema, json: &Value) -> Result<Asked, LineError>
    ensures { Gives (λ a. a) result (asked_of schema.now.spec (view json.now)) }
{
    match word_in(json)? {
        Word::Submit => submit_in(alloc, schema, json),
        Word::Since => since_in(json),
        Word::Doc => Ok(Asked::Doc),
    }
}

/// The word that `op` says.
fn word_in(json: &Value) -> Result<Word, LineError>
    ensures { Gives (λ w. w) result (word_in (view json.now)) }
{
    let text = text_in(json, "op")?;
    match word_named(text) {
        Some(word) => Ok(word),
        None => Err(LineError::Code(Code::UnknownName)),
    }
}

pub(crate) fn word_named(text: &str) -> Option<Word>
    ensures { result ≡ word_named text.now }
{
    if text == "submit" {
        Some(Word::Submit)
    } else if text == "since" {
        Some(Word::Since)
    } else if text == "doc" {
        Some(Word::Doc)
    } else {
        None
    }
}

/// A line that submits steps.
#[tactic(auto, unfolding(crate::specs::Asked::submit_in))]
fn submit_in(alloc: Global, schema: &Schema, json: &Value) -> Result<Asked, LineError>
    ensures { Gives (λ a. a) result (submit_in schema.now.spec (view json.now)) }
{
    let version = count_in(json, "version")?;
    let id = id_in(alloc, json)?;
    let steps = steps_in(alloc, schema, json)?;
    Ok(Asked::Submit { version, id, steps })
}

/// A line that asks for the log.
#[tactic(auto, unfolding(crate::specs::Asked::since_in))]
fn since_in(json: &Value) -> Result<Asked, LineError>
    ensures { Gives (λ a. a) result (since_in (view json.now)) }
{
    let version = count_in(json, "version")?;
    let most = most_in(json)?;
    Ok(Asked::Since { version, most })
}

/// How many entries are asked for at most: a whole number from 0 to 4,294,967,295, or nothing where it is absent or null.
pub(crate) fn most_in<J: JsonRef>(json: J) -> Result<Option<u32>, LineError>
    ensures { Gives (λ n. n) result (most_in (J.seen json)) }
{
    match field(json, "most") {
        None => Ok(None),
        Some(value) => match as_count(value) {
            Some(number) => Ok(Some(number as u32)),
            None => Err(LineError::Code(Code::WrongShape)),
        },
    }
}
