//! Undo and redo.
ghost use Rattle.std.specs.Prelude.{◌≡◌, ◌+◌, ◌≤◌, ◌^◌, ◌↔◌, length, Some, None, Err, IfOk, OnOk, OnErr, string_bytes};
ghost use Rattle.pm_apply.specs.Changes.{meaning};
ghost use Rattle.pm_history.specs.Turns.{event_for};
ghost use Rattle.pm_history.specs.Undos as undos;
ghost use Rattle.pm_client.specs.Clients.{turned_if};
ghost use Rattle.pm_client.specs.declared.failing.UndoError.TheVariants.{NothingToUndo};
ghost use Rattle.pm_client.specs.Kins.{Stands};
ghost use Rattle.pm_editor.specs.Editors.{IsEditor, turned_by};
ghost use Rattle.pm_told.specs.Showing.{serials_on};
ghost use Rattle.pm_told.specs.Texts.{turned_text};

use crate::editor::Editor;
use pm_apply::DocChange;
use pm_change::{Change, Name};
use pm_client::{Client, UndoError};
use pm_history::{Turn, Undone, undo_event};
use pm_node::Document;
use pm_schema::Schema;
use pm_told::{no_event_text, push_changes, push_numbers, serials_from};
use std::alloc::{AllocError, Global};

impl Editor {
    /// Undoes an event or redoes one. What is made is reckoned before, so that the text that tells it is there before anything
    /// changes, and running out of memory changes nothing.
    pub(crate) fn turn(&mut self, alloc: Global, turn: Turn) -> Result<String, AllocError>
        requires { IsEditor self.old }
        ensures text { IfOk result (λ s. string_bytes s ≡ (turned_by self.old turn).0) }
        ensures after { OnOk result (self.new ≡ (turned_by self.old turn).1) }
        ensures err { OnErr result (self.new ≡ self.old) }
        ensures good { IsEditor self.new }
    {
        let Some(event) = self.client.history().last(turn) else {
            return no_event_text(alloc);
        };
        let serial = self.serials.checked_add(1).ok_or(AllocError)?;
        let undone = self.reckoned(alloc, serial, event.names.as_slice())?;
        let serials = self
            .serials
            .checked_add(undone.made.len() as u64)
            .ok_or(AllocError)?;
        let text = turned_text(alloc, &self.schema, serial, undone.made.as_slice())?;
        match turn_client(alloc, &self.schema, &mut self.client, turn) {
            Ok(_) => {
                self.serials = serials;
                Ok(text)
            }
            Err(UndoError::NothingToUndo) => no_event_text(alloc),
            Err(UndoError::NoMemory) => Err(AllocError),
        }
    }

    /// What undoing the steps of these names makes.
    fn reckoned(
        &self,
        alloc: Global,
        serial: u64,
        names: &[Name],
    ) -> Result<Undone<Document, DocChange>, AllocError>
        requires { IsEditor self.now }
        ensures { IfOk result (λ w. w ≡ undos.undo_event meaning self.now.schema self.now.client.name names.now self.now.client.history.items self.now.client.doc serial) }
    {
        let doc = DocChange::copy_doc(alloc, self.client.doc())?;
        let items = self.client.history().since(names);
        undo_event(
            alloc,
            &self.schema,
            self.client.name(),
            names,
            items,
            doc,
            serial,
        )
    }
}

/// The client undoes the event that is taken, or redoes it.
fn turn_client(
    alloc: Global,
    schema: &Schema,
    client: &mut Client<DocChange>,
    turn: Turn,
) -> Result<u64, UndoError>
    requires { Stands meaning schema.now client.old }
    ensures turned { IfOk result (λ n. turned_if meaning schema.now client.old turn (event_for turn client.old.history) ≡ Some (n, client.new)) }
    ensures nothing { (result ≡ Err NothingToUndo) ↔ (event_for turn client.old.history ≡ None) }
    ensures err { OnErr result (client.new ≡ client.old) }
    ensures stands { Stands meaning schema.now client.new }
{
    match turn {
        Turn::Undo => client.undo(alloc, schema),
        Turn::Redo => client.redo(alloc, schema),
        Turn::UndoEvent { number } => client.undo_event(alloc, schema, number),
    }
}

/// An event was undone or redone: by how many steps, their serials, the first of which is this one, and the steps.
fn turned_text(
    alloc: Global,
    schema: &Schema,
    first: u64,
    steps: &[DocChange],
) -> Result<String, AllocError>
    requires { first + length steps.now ≤ 2 ^ 64 }
    ensures { IfOk result (λ s. string_bytes s ≡ turned_text schema.now.spec (serials_on first (length steps.now)) steps.now) }
{
    let count = steps.len();
    let serials = serials_from(alloc, first, count)?;
    let mut text = format!(in alloc; "{{\"made\":{count},\"serials\":")?;
    push_numbers(&mut text, &serials)?;
    text.push_str(",\"steps\":")?;
    push_changes(alloc, schema, &mut text, steps)?;
    text.push_str("}\n")?;
    Ok(text)
}
