//! The words of op lines.
ghost use Rattle.std.specs.Prelude.{◌≡◌};
ghost use Rattle.pm_script.specs.Words.{exchange_named, says_enter, word_named, may_say, in_turn};

use pm_head::Form;
use pm_opjson::EditKind;

/// The greatest number of cursor lines of one client.
const MAX_CURSORS: u64 = 64;

/// What an op line says by its `op`.
#[derive(Clone, Copy, Debug, PartialEq, Eq)]
pub(crate) enum Word {
    Edit(EditKind),
    Undo,
    Redo,
    UndoEvent,
    Cursor,
    Submit,
    Ask,
    Present,
    Take,
    Push,
    Pull,
    Forge,
    Enter,
}

impl Word {
    /// The word of this text, if there is one in files of this form.
    pub(crate) fn named(form: Form, text: &str) -> Option<Word>
        ensures { result ≡ word_named form text.now }
    {
        if let Some(edit) = EditKind::named(text) {
            return Some(Word::Edit(edit));
        }
        if text == "undo" {
            Some(Word::Undo)
        } else if text == "redo" {
            Some(Word::Redo)
        } else if text == "undoevent" {
            Some(Word::UndoEvent)
        } else if text == "cursor" {
            Some(Word::Cursor)
        } else if says_enter(form, text) {
            Some(Word::Enter)
        } else {
            exchange_named(text)
        }
    }

    /// Whether a line of an editor, or of a raw client, may say the word, where so many earlier lines of the client set
    /// cursors. Whether a client may say `enter` is decided after that, by `is_in_turn`.
    pub(crate) fn may_be_said(self, raw: bool, cursors: u64) -> bool
        ensures { result ≡ may_say raw cursors self }
    {
        match self {
            Word::Cursor => !raw && cursors < MAX_CURSORS,
            Word::Forge => raw,
            Word::Enter => true,
            Word::Edit(_)
            | Word::Undo
            | Word::Redo
            | Word::UndoEvent
            | Word::Submit
            | Word::Ask
            | Word::Present
            | Word::Take
            | Word::Push
            | Word::Pull => !raw,
        }
    }

    /// Whether a line says the word in its turn: `enter` where its client is due to enter, and else any other word.
    pub(crate) fn is_in_turn(self, due: bool) -> bool
        ensures { result ≡ in_turn due self }
    {
        match self {
            Word::Enter => due,
            Word::Edit(_)
            | Word::Undo
            | Word::Redo
            | Word::UndoEvent
            | Word::Cursor
            | Word::Submit
            | Word::Ask
            | Word::Present
            | Word::Take
            | Word::Push
            | Word::Pull
            | Word::Forge => !due,
        }
    }
}

/// Whether the text is `enter`, in files where that is a word.
fn says_enter(form: Form, text: &str) -> bool
    ensures { result ≡ says_enter form text.now }
{
    match form {
        Form::Plain => false,
        Form::Late => text == "enter",
    }
}

/// The word of a text that sends messages or takes answers, if it is one.
fn exchange_named(text: &str) -> Option<Word>
    ensures { result ≡ exchange_named text.now }
{
    if text == "submit" {
        Some(Word::Submit)
    } else if text == "ask" {
        Some(Word::Ask)
    } else if text == "present" {
        Some(Word::Present)
    } else if text == "take" {
        Some(Word::Take)
    } else if text == "push" {
        Some(Word::Push)
    } else if text == "pull" {
        Some(Word::Pull)
    } else if text == "forge" {
        Some(Word::Forge)
    } else {
        None
    }
}
