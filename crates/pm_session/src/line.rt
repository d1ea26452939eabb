//! One line of a session.
ghost use Rattle.std.specs.Prelude.{◌≡◌};
ghost use Rattle.pm_session.specs.Suits.{composes_one, gets_one, names_one, enters, sets_one};

use pm_list::Listed;
use pm_map::Side;

/// What a line does. All acts but `Forge` are an editor's, and `Forge` is a raw client's. `Enter` is an editor's that comes late.
#[derive(Debug, Drop)]
pub enum Act<O, C> {
    /// Makes the steps of this op. They join the last event to undo where that is open and has this number; else they are a
    /// new event.
    Edit { op: O, event: Option<u32> },
    /// Undoes the client's last event that can be undone.
    Undo,
    /// Redoes the client's last event that was undone.
    Redo,
    /// Undoes the client's last event with this number that can be undone, and leaves the others.
    UndoEvent { event: u32 },
    /// Sets a cursor at this position of the client's document, in tokens, with this side.
    Cursor { pos: u64, side: Side },
    /// Composes a submission of all pending steps.
    Submit,
    /// Composes an ask for the entries from the client's version on.
    Ask,
    /// Presents the client's message of this number, counted from 1, and keeps the answer.
    Present { message: u64 },
    /// Takes the client's answer of this number, counted from 1.
    Take { answer: u64 },
    /// Composes a submission, presents it, keeps the answer, and takes it unless it is lost.
    Push { lost: bool },
    /// Composes an ask, presents it, keeps the answer, and takes it unless it is lost.
    Pull { lost: bool },
    /// Presents a submission of these steps at this version. Each step gets the raw client's name and its next serial, also
    /// where the submission is refused.
    Forge { version: u64, steps: Listed<C> },
    /// Comes late: the client stands at the log's end from here on. No member of a room plays it; a room of pm_versions does.
    Enter,
}

impl<O, C> Act<O, C> {
    /// Whether it composes a message.
    pub fn composes(&self) -> bool
        ensures { result ≡ composes_one self.now }
    {
        match self {
            Act::Submit | Act::Ask | Act::Push { lost: _ } | Act::Pull { lost: _ } => true,
            Act::Edit { op: _, event: _ }
            | Act::Undo
            | Act::Redo
            | Act::UndoEvent { event: _ }
            | Act::Cursor { pos: _, side: _ }
            | Act::Present { message: _ }
            | Act::Take { answer: _ }
            | Act::Forge {
                version: _,
                steps: _,
            }
            | Act::Enter => false,
        }
    }

    /// Whether it gets an answer, which is kept.
    pub fn answers(&self) -> bool
        ensures { result ≡ gets_one self.now }
    {
        match self {
            Act::Present { message: _ } | Act::Push { lost: _ } | Act::Pull { lost: _ } => true,
            Act::Edit { op: _, event: _ }
            | Act::Undo
            | Act::Redo
            | Act::UndoEvent { event: _ }
            | Act::Cursor { pos: _, side: _ }
            | Act::Submit
            | Act::Ask
            | Act::Take { answer: _ }
            | Act::Forge {
                version: _,
                steps: _,
            }
            | Act::Enter => false,
        }
    }

    /// Whether the message or the answer that it names is one of so many, counted from 1; true where it names none, but false
    /// for `Enter`, which no member plays.
    pub fn names(&self, messages: u64, answers: u64) -> bool
        ensures { result ≡ names_one messages answers self.now }
    {
        match self {
            Act::Present { message } => 0 < *message && *message <= messages,
            Act::Take { answer } => 0 < *answer && *answer <= answers,
            Act::Enter => false,
            Act::Edit { op: _, event: _ }
            | Act::Undo
            | Act::Redo
            | Act::UndoEvent { event: _ }
            | Act::Cursor { pos: _, side: _ }
            | Act::Submit
            | Act::Ask
            | Act::Push { lost: _ }
            | Act::Pull { lost: _ }
            | Act::Forge {
                version: _,
                steps: _,
            } => true,
        }
    }

    /// Whether a client comes late by it.
    pub fn enters(&self) -> bool
        ensures { result ≡ enters self.now }
    {
        match self {
            Act::Enter => true,
            Act::Edit { op: _, event: _ }
            | Act::Undo
            | Act::Redo
            | Act::UndoEvent { event: _ }
            | Act::Cursor { pos: _, side: _ }
            | Act::Submit
            | Act::Ask
            | Act::Present { message: _ }
            | Act::Take { answer: _ }
            | Act::Push { lost: _ }
            | Act::Pull { lost: _ }
            | Act::Forge {
                version: _,
                steps: _,
            } => false,
        }
    }

    /// Whether it sets a cursor.
    pub fn sets_cursor(&self) -> bool
        ensures { result ≡ sets_one self.now }
    {
        match self {
            Act::Cursor { pos: _, side: _ } => true,
            Act::Edit { op: _, event: _ }
            | Act::Undo
            | Act::Redo
            | Act::UndoEvent { event: _ }
            | Act::Submit
            | Act::Ask
            | Act::Present { message: _ }
            | Act::Take { answer: _ }
            | Act::Push { lost: _ }
            | Act::Pull { lost: _ }
            | Act::Forge {
                version: _,
                steps: _,
            }
            | Act::Enter => false,
        }
    }
}

/// One event of a session.
#[derive(Debug, Drop)]
pub struct Line<O, C> {
    /// The number of the line in its file, from 1.
    pub number: u32,
    /// The client's number, from 0.
    pub client: u32,
    pub act: Act<O, C>,
}
