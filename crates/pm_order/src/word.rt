//! The words of lines.
ghost use Rattle.std.specs.Prelude.{◌≡◌};
ghost use Rattle.serde_json.specs.View.{view};
ghost use Rattle.pm_head.specs.Answers.{Gives};
ghost use Rattle.pm_order.specs.Words.{doc_word_named, within, word_named, word_in};

use pm_head::{Code, LineError};
use pm_opjson::text_in;
use serde_json::Value;

/// The words of lines to one document.
#[derive(Clone, Copy, Debug, PartialEq, Eq)]
pub enum DocWord {
    Submit,
    Since,
    Doc,
    Forget,
    Map,
    Revert,
    Edit,
    Authors,
}

/// The words of lines.
#[derive(Clone, Copy, Debug, PartialEq, Eq)]
pub enum Word {
    /// To give a schema a name.
    Schema,
    /// To open a document.
    Open,
    /// To close one.
    Close,
    /// For the open documents.
    Documents,
    /// For what the house holds.
    Statistics,
    /// What is asked of one document.
    In(DocWord),
}

/// The word that `op` says. `WrongShape` comes where there is no text, and `UnknownName` where it is no word.
pub fn word_in(json: &Value) -> Result<Word, LineError>
    ensures { Gives (λ w. w) result (word_in (view json.now)) }
{
    let text = text_in(json, "op")?;
    match word_named(text) {
        Some(word) => Ok(word),
        None => Err(LineError::Code(Code::UnknownName)),
    }
}

fn word_named(text: &str) -> Option<Word>
    ensures { result ≡ word_named text.now }
{
    if text == "schema" {
        Some(Word::Schema)
    } else if text == "open" {
        Some(Word::Open)
    } else if text == "close" {
        Some(Word::Close)
    } else if text == "documents" {
        Some(Word::Documents)
    } else if text == "statistics" {
        Some(Word::Statistics)
    } else {
        within(doc_word_named(text))
    }
}

fn within(word: Option<DocWord>) -> Option<Word>
    ensures { result ≡ within word }
{
    match word {
        Some(word) => Some(Word::In(word)),
        None => None,
    }
}

fn doc_word_named(text: &str) -> Option<DocWord>
    ensures { result ≡ doc_word_named text.now }
{
    if text == "submit" {
        Some(DocWord::Submit)
    } else if text == "since" {
        Some(DocWord::Since)
    } else if text == "doc" {
        Some(DocWord::Doc)
    } else if text == "forget" {
        Some(DocWord::Forget)
    } else if text == "map" {
        Some(DocWord::Map)
    } else if text == "revert" {
        Some(DocWord::Revert)
    } else if text == "edit" {
        Some(DocWord::Edit)
    } else if text == "authors" {
        Some(DocWord::Authors)
    } else {
        None
    }
}
