//! An authority that answers lines.
ghost use Rattle.std.specs.Prelude.{◌≡◌, ◌<◌, length, false, None, Ok, IfOk, OnOk, OnErr, string_bytes};
ghost use Rattle.std.specs.List.{list_any};
ghost use Rattle.std.specs.Str.{bytes_eq};
ghost use Rattle.pm_schema.specs.Names.{place_of};
ghost use Rattle.pm_apply.specs.Changes.{meaning};
ghost use Rattle.pm_authority.specs.Kept.{IsKept};
ghost use Rattle.pm_talk.specs.declared.ids.TheConstants.{MAX_IDS};
ghost use Rattle.pm_talk.specs.Live.{answer, answered, submitted};
ghost use Rattle.pm_talk.specs.Limited.{answer_within, answered_within};

use crate::asked::{Asked, asked_line};
use crate::ids::{ClientIds, MAX_IDS};
use crate::limited::{is_over, limit_text};
use crate::presenting::{Told, present};
use crate::texts::fault_text;
use crate::writing::{doc_text, front, since_text};
use pm_apply::DocChange;
use pm_authority::Authority;
use pm_head::{Code, LineError};
use pm_schema::Schema;
use std::alloc::{AllocError, Global};

/// An authority that answers lines: the schema, the authority, and the IDs of the clients of whom a step was accepted.
#[derive(Drop)]
pub struct Live {
    pub schema: Schema,
    pub authority: Authority<DocChange>,
    pub ids: ClientIds,
}

impl Live {
    /// The answer to a line. Only an accepted step changes anything, and out of memory does not.
    pub fn answer(&mut self, alloc: Global, line: &[u8]) -> Result<String, AllocError>
        requires { IsKept meaning self.old.schema self.old.authority }
        ensures text { IfOk result (λ s. string_bytes s ≡ (answered self.old line.now).0) }
        ensures after { OnOk result (self.new ≡ (answered self.old line.now).1) }
        ensures err { OnErr result (self.new ≡ self.old) }
        ensures kept { IsKept meaning self.new.schema self.new.authority }
    {
        match asked_line(alloc, &self.schema, line) {
            Ok(asked) => self.answer_asked(alloc, asked),
            Err(LineError::Code(code)) => fault_text(alloc, code),
            Err(LineError::NoMemory) => Err(AllocError),
        }
    }

    /// The answer to a line where the steps of a submission may go over so many tokens: one that goes over more is told the limit,
    /// and changes nothing.
    pub(crate) fn answer_within(
        &mut self,
        alloc: Global,
        limit: u64,
        line: &[u8],
    ) -> Result<String, AllocError>
        requires { IsKept meaning self.old.schema self.old.authority }
        ensures text { IfOk result (λ s. string_bytes s ≡ (answered_within limit self.old line.now).0) }
        ensures after { OnOk result (self.new ≡ (answered_within limit self.old line.now).1) }
        ensures err { OnErr result (self.new ≡ self.old) }
        ensures kept { IsKept meaning self.new.schema self.new.authority }
    {
        match asked_line(alloc, &self.schema, line) {
            Ok(asked) => self.answer_below(alloc, limit, asked),
            Err(LineError::Code(code)) => fault_text(alloc, code),
            Err(LineError::NoMemory) => Err(AllocError),
        }
    }

    /// The answer to a line that asks this, within the limit.
    fn answer_below(
        &mut self,
        alloc: Global,
        limit: u64,
        asked: Asked,
    ) -> Result<String, AllocError>
        requires { IsKept meaning self.old.schema self.old.authority }
        ensures text { IfOk result (λ s. string_bytes s ≡ (answer_within limit self.old (Ok asked)).0) }
        ensures after { OnOk result (self.new ≡ (answer_within limit self.old (Ok asked)).1) }
        ensures err { OnErr result (self.new ≡ self.old) }
        ensures kept { IsKept meaning self.new.schema self.new.authority }
    {
        if is_over(limit, &asked) {
            return limit_text(alloc, limit);
        }
        self.answer_asked(alloc, asked)
    }

    /// The answer to a line that asks this.
    fn answer_asked(&mut self, alloc: Global, asked: Asked) -> Result<String, AllocError>
        requires { IsKept meaning self.old.schema self.old.authority }
        ensures text { IfOk result (λ s. string_bytes s ≡ (answer self.old (Ok asked)).0) }
        ensures after { OnOk result (self.new ≡ (answer self.old (Ok asked)).1) }
        ensures err { OnErr result (self.new ≡ self.old) }
        ensures kept { IsKept meaning self.new.schema self.new.authority }
    {
        match asked {
            Asked::Submit { version, id, steps } => {
                self.submit(alloc, version, id.as_str(), steps.as_slice())
            }
            Asked::Since { version, most } => {
                let log = front(self.authority.log(), version, most);
                since_text(alloc, &self.schema, &self.ids, log, version)
            }
            Asked::Doc => doc_text(alloc, &self.schema, &self.authority),
        }
    }

    /// The answer to a submission.
    fn submit(
        &mut self,
        alloc: Global,
        version: u32,
        id: &str,
        steps: &[DocChange],
    ) -> Result<String, AllocError>
        requires { IsKept meaning self.old.schema self.old.authority }
        ensures text { IfOk result (λ s. string_bytes s ≡ (submitted self.old version id.now steps.now).0) }
        ensures after { OnOk result (self.new ≡ (submitted self.old version id.now steps.now).1) }
        ensures err { OnErr result (self.new ≡ self.old) }
        ensures kept { IsKept meaning self.new.schema self.new.authority }
    {
        match self.ids.place(id) {
            Some(number) => {
                let told = present(
                    alloc,
                    &self.schema,
                    &mut self.authority,
                    number as u32,
                    version,
                    steps,
                )?;
                Ok(told.text)
            }
            None => if self.ids.len() < MAX_IDS {
                self.submit_first(alloc, version, id, steps)
            } else {
                fault_text(alloc, Code::BadClients)
            },
        }
    }

    /// The answer to a submission of a client whose ID is not there yet. It is taken up where a step is accepted.
    fn submit_first(
        &mut self,
        alloc: Global,
        version: u32,
        id: &str,
        steps: &[DocChange],
    ) -> Result<String, AllocError>
        requires kept { IsKept meaning self.old.schema self.old.authority }
        requires absent { place_of id.now self.old.ids ≡ None }
        requires new { list_any (bytes_eq id.now) self.old.ids ≡ false }
        requires room { length self.old.ids < MAX_IDS }
        ensures text { IfOk result (λ s. string_bytes s ≡ (submitted self.old version id.now steps.now).0) }
        ensures after { OnOk result (self.new ≡ (submitted self.old version id.now steps.now).1) }
        ensures err { OnErr result (self.new ≡ self.old) }
        ensures kept { IsKept meaning self.new.schema self.new.authority }
    {
        let number = self.ids.len();
        self.ids.add(alloc, id)?;
        match present(
            alloc,
            &self.schema,
            &mut self.authority,
            number as u32,
            version,
            steps,
        ) {
            Ok(Told { text, accepted }) => {
                keep_last(&mut self.ids, number, accepted);
                Ok(text)
            }
            Err(AllocError) => {
                self.ids.truncate(number);
                Err(AllocError)
            }
        }
    }
}

ghost use Rattle.std.specs.Prelude.{if◌then◌else◌, take};

/// Lets all IDs but the first `count` go, unless the last is kept.
fn keep_last(ids: &mut ClientIds, count: usize, kept: bool)
    ensures { ids.new ≡ (if kept then ids.old else take count ids.old) }
{
    if !kept {
        ids.truncate(count);
    }
}
