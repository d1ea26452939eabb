//! Edits.
ghost use Rattle.std.specs.Prelude.{◌≡◌, ◌+◌, ◌<◌, length, Ok, IfOk, OnOk, OnErr, IfErr, IfSome, Some, string_bytes};
ghost use Rattle.pm_apply.specs.Changes.{meaning};
ghost use Rattle.pm_change.specs.Changes.{fold};
ghost use Rattle.pm_client.specs.Clients.{edited, IsRefusal};
ghost use Rattle.pm_client.specs.Kins.{Stands};
ghost use Rattle.pm_making.specs.Making.{makes};
ghost use Rattle.pm_session.specs.Makes.{GivesSteps};
ghost use Rattle.pm_editor.specs.Editors.{IsEditor, edited_by, can_answer, tried_text};
ghost use Rattle.pm_told.specs.Texts.{made_text, can_text};

use crate::editor::Editor;
use pm_apply::DocChange;
use pm_asked::Edit;
use pm_authority::{Refusal, apply_all};
use pm_change::{Failed, MakeError};
use pm_client::naming::name_steps;
use pm_client::{Client, EditError};
use pm_making::EditMaker;
use pm_meaning::Reason;
use pm_ops::Op;
use pm_schema::Schema;
use pm_session::{Made, Maker};
use pm_told::{none_text, push_changes, unmade_text};
use std::alloc::{AllocError, Global};

impl Editor {
    /// Makes the step of an edit. The text that tells it is there before anything changes, so that running out of memory changes
    /// nothing.
    pub(crate) fn edit(&mut self, alloc: Global, edit: &Edit) -> Result<String, AllocError>
        requires { IsEditor self.old }
        ensures text { IfOk result (λ s. string_bytes s ≡ (edited_by self.old edit.now).0) }
        ensures after { OnOk result (self.new ≡ (edited_by self.old edit.now).1) }
        ensures err { OnErr result (self.new ≡ self.old) }
        ensures good { IsEditor self.new }
    {
        let made = match self.made(alloc, &edit.op) {
            Ok(made) => made,
            Err(MakeError::NoStep(reason)) => return none_text(alloc, reason),
            Err(MakeError::NoMemory) => return Err(AllocError),
        };
        let serial = self.serials.checked_add(1).ok_or(AllocError)?;
        let serials = self
            .serials
            .checked_add(made.steps.len() as u64)
            .ok_or(AllocError)?;
        let text = made_text(alloc, &self.schema, serial, &made.steps)?;
        match edit_client(alloc, &self.schema, &mut self.client, made, edit.event) {
            Ok(_) => {
                self.serials = serials;
                Ok(text)
            }
            Err(EditError::Refused { index: _, reason }) => unmade_text(alloc, &reason),
            Err(EditError::NoMemory) => Err(AllocError),
        }
    }

    /// What an edit would be answered.
    pub(crate) fn can(&self, alloc: Global, edit: &Edit) -> Result<String, AllocError>
        requires { IsEditor self.now }
        ensures { IfOk result (λ s. string_bytes s ≡ can_answer self.now edit.now) }
    {
        let Made { steps, end } = match self.made(alloc, &edit.op) {
            Ok(made) => made,
            Err(MakeError::NoStep(reason)) => return none_text(alloc, reason),
            Err(MakeError::NoMemory) => return Err(AllocError),
        };
        let text = can_text(alloc, &self.schema, &steps)?;
        match end {
            Some(_) => Ok(text),
            None => self.tried(alloc, steps, edit.event, text),
        }
    }

    /// The steps of an op on the client's document.
    fn made(&self, alloc: Global, op: &Op) -> Result<Made<DocChange>, MakeError>
        requires { IsEditor self.now }
        ensures steps { GivesSteps (makes self.now.schema self.now.client.doc op.now) result }
        ensures end { IfOk result (λ made. IfSome made.end (λ end. fold meaning self.now.schema self.now.client.doc made.steps.items ≡ Some end)) }
        ensures some { IfOk result (λ made. 0 < length made.steps.items) }
    {
        EditMaker.steps(alloc, &self.schema, self.client.doc(), op)
    }

    /// The text, where the steps apply to the client's document, else what an edit is answered that makes them.
    fn tried(
        &self,
        alloc: Global,
        steps: Vec<DocChange>,
        event: Option<u32>,
        text: String,
    ) -> Result<String, AllocError>
        requires good { IsEditor self.now }
        requires text { string_bytes text ≡ can_text self.now.schema.spec steps.items }
        ensures { IfOk result (λ s. string_bytes s ≡ tried_text self.now steps.items (edited meaning self.now.schema self.now.client steps.items event)) }
    {
        let serial = self.serials.checked_add(1).ok_or(AllocError)?;
        self.serials
            .checked_add(steps.len() as u64)
            .ok_or(AllocError)?;
        let named = name_steps(alloc, self.client.name(), serial, steps)?;
        match apply_all(alloc, &self.schema, self.client.doc(), named.as_slice()) {
            Ok(_) => Ok(text),
            Err(Failed::Reason(Refusal { index: _, reason })) => unmade_text(alloc, &reason),
            Err(Failed::NoMemory) => Err(AllocError),
        }
    }
}

/// The client makes the steps of an edit, which lead to the document that came with them, where one did.
fn edit_client(
    alloc: Global,
    schema: &Schema,
    client: &mut Client<DocChange>,
    made: Made<DocChange>,
    event: Option<u32>,
) -> Result<u64, EditError<Reason>>
    requires stands { Stands meaning schema.now client.old }
    requires some { 0 < length made.steps.items }
    requires leads { IfSome made.end (λ end. fold meaning schema.now client.old.doc made.steps.items ≡ Some end) }
    ensures edited { IfOk result (λ _. edited meaning schema.now client.old made.steps.items event ≡ Ok client.new) }
    ensures refused { IfErr result (IsRefusal meaning schema.now (edited meaning schema.now client.old made.steps.items event)) }
    ensures err { OnErr result (client.new ≡ client.old) }
    ensures stands { Stands meaning schema.now client.new }
{
    let Made { steps, end } = made;
    match end {
        Some(end) => client.edit_to(alloc, schema, steps, end, event),
        None => client.edit(alloc, schema, steps, event),
    }
}

/// The steps of an edit were made: how many, the first one's serial, and the steps.
fn made_text(
    alloc: Global,
    schema: &Schema,
    serial: u64,
    steps: &[DocChange],
) -> Result<String, AllocError>
    ensures { IfOk result (λ s. string_bytes s ≡ made_text schema.now.spec serial steps.now) }
{
    let count = steps.len();
    let mut text = format!(in alloc; "{{\"made\":{count},\"serial\":{serial},\"steps\":")?;
    push_changes(alloc, schema, &mut text, steps)?;
    text.push_str("}\n")?;
    Ok(text)
}

/// The steps of an edit would be made: how many, and the steps.
fn can_text(alloc: Global, schema: &Schema, steps: &[DocChange]) -> Result<String, AllocError>
    ensures { IfOk result (λ s. string_bytes s ≡ can_text schema.now.spec steps.now) }
{
    let count = steps.len();
    let mut text = format!(in alloc; "{{\"made\":{count},\"steps\":")?;
    push_changes(alloc, schema, &mut text, steps)?;
    text.push_str("}\n")?;
    Ok(text)
}
