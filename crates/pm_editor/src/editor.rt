//! An editor that answers lines.
ghost use Rattle.std.specs.Prelude.{◌≡◌, Ok, IfOk, OnOk, OnErr, string_bytes};
ghost use Rattle.pm_editor.specs.Editors.{IsEditor, answered, answer_to, cursor_answer};

use pm_apply::DocChange;
use pm_asked::{Asked, asked_line};
use pm_change::NoStep;
use pm_client::{Client, CursorError};
use pm_head::{Code, LineError};
use pm_map::Side;
use pm_schema::Schema;
use pm_talk::fault_text;
use pm_told::{ask_text, cursor_text, none_text};
use pm_value::Text;
use std::alloc::{AllocError, Global};

/// The greatest number of cursors.
const MAX_CURSORS: usize = 64;

/// An editor that answers lines: the schema, the client, its ID as its JSON text, and how many serials the client has drawn. The
/// client's name is 0, and others' steps stand under the name 1.
#[derive(Drop)]
pub struct Editor {
    pub schema: Schema,
    pub client: Client<DocChange>,
    pub id: Text,
    pub serials: u64,
}

impl Editor {
    /// The answer to a line. A line with a fault changes nothing, and out of memory nothing changes either.
    pub fn answer(&mut self, alloc: Global, line: &[u8]) -> Result<String, AllocError>
        requires { IsEditor self.old }
        ensures text { IfOk result (λ s. string_bytes s ≡ (answered self.old line.now).0) }
        ensures after { OnOk result (self.new ≡ (answered self.old line.now).1) }
        ensures err { OnErr result (self.new ≡ self.old) }
        ensures good { IsEditor self.new }
    {
        match asked_line(alloc, &self.schema, self.id.as_str(), line) {
            Ok(asked) => self.do_asked(alloc, &asked),
            Err(LineError::Code(code)) => fault_text(alloc, code),
            Err(LineError::NoMemory) => Err(AllocError),
        }
    }

    /// Does what a line asks.
    fn do_asked(&mut self, alloc: Global, asked: &Asked) -> Result<String, AllocError>
        requires { IsEditor self.old }
        ensures text { IfOk result (λ s. string_bytes s ≡ (answer_to self.old (Ok asked.now)).0) }
        ensures after { OnOk result (self.new ≡ (answer_to self.old (Ok asked.now)).1) }
        ensures err { OnErr result (self.new ≡ self.old) }
        ensures good { IsEditor self.new }
    {
        match asked {
            Asked::Edit(edit) => self.edit(alloc, edit),
            Asked::Can(edit) => self.can(alloc, edit),
            Asked::Turn { turn } => self.turn(alloc, *turn),
            Asked::Cursor { pos, side } => self.set_cursor(alloc, *pos, *side),
            Asked::Compose => self.submission(alloc),
            Asked::Ask => ask_text(alloc, self.client.version()),
            Asked::Take(given) => self.take(alloc, given),
            Asked::Doc => self.doc_text(alloc),
            Asked::State => self.state_text(alloc),
        }
    }

    /// Sets a cursor.
    fn set_cursor(&mut self, alloc: Global, pos: u64, side: Side) -> Result<String, AllocError>
        requires { IsEditor self.old }
        ensures text { IfOk result (λ s. string_bytes s ≡ (cursor_answer self.old pos side).0) }
        ensures after { OnOk result (self.new ≡ (cursor_answer self.old pos side).1) }
        ensures err { OnErr result (self.new ≡ self.old) }
        ensures good { IsEditor self.new }
    {
        let place = self.client.cursors().len();
        if place >= MAX_CURSORS {
            return fault_text(alloc, Code::OpNotAllowed);
        }
        let text = cursor_text(alloc, place, pos)?;
        match self.client.set_cursor(pos, side) {
            Ok(()) => Ok(text),
            Err(CursorError::Range) => none_text(alloc, NoStep::Range),
            Err(CursorError::NoMemory) => Err(AllocError),
        }
    }
}
