//! The words of lines.
ghost use Rattle.std.specs.Prelude.{◌≡◌};
ghost use Rattle.pm_asked.specs.Words.{word_named, other_named};

use pm_opjson::EditKind;

/// The words of lines.
#[derive(Clone, Copy, Debug, PartialEq, Eq)]
pub enum Word {
    Edit(EditKind),
    Can,
    Undo,
    Redo,
    UndoEvent,
    Cursor,
    Compose,
    Ask,
    Take,
    Doc,
    State,
}

impl Word {
    /// The word that the text is, if it is one.
    pub fn named(text: &str) -> Option<Word>
        ensures { result ≡ word_named text.now }
    {
        match EditKind::named(text) {
            Some(kind) => Some(Word::Edit(kind)),
            None => other_named(text),
        }
    }
}

/// The word that the text is, if it is one that names no edit.
fn other_named(text: &str) -> Option<Word>
    ensures { result ≡ other_named text.now }
{
    if text == "can" {
        Some(Word::Can)
    } else if text == "undo" {
        Some(Word::Undo)
    } else if text == "redo" {
        Some(Word::Redo)
    } else if text == "undoevent" {
        Some(Word::UndoEvent)
    } else if text == "cursor" {
        Some(Word::Cursor)
    } else if text == "compose" {
        Some(Word::Compose)
    } else if text == "ask" {
        Some(Word::Ask)
    } else if text == "take" {
        Some(Word::Take)
    } else if text == "doc" {
        Some(Word::Doc)
    } else if text == "state" {
        Some(Word::State)
    } else {
        None
    }
}
