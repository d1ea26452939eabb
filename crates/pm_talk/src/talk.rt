//! A talk, by what came of it so far.
ghost use Rattle.std.specs.Prelude.{◌≡◌, true, Some, IfOk, OnErr, string_bytes};
ghost use Rattle.pm_talk.specs.declared.talk.Talk.TheVariants.{AwaitsSchema, AwaitsDocument};
ghost use Rattle.pm_talk.specs.Talk.{Replies, is_open, awaits_document, IsGood, last_text, DocumentHeard};
ghost use Rattle.pm_talk.specs.Limited.{RepliesBelow};

use crate::ids::ClientIds;
use crate::live::Live;
use crate::texts::{no_memory, opened_text, opening_fault_text};
use pm_apply::DocChange;
use pm_authority::Authority;
use pm_head::{LineError, doc_line, schema_line};
use pm_schema::Schema;
use pm_serve::{Reply, Service};
use std::alloc::{AllocError, Global};
use std::mem;

/// A talk, by what came of it so far.
#[derive(Drop)]
pub enum Talk {
    /// Line 1 is awaited, a schema.
    AwaitsSchema,
    /// Line 2 is awaited, a document of this schema, or `null` for its top type filled.
    AwaitsDocument(Schema),
    /// Each line is answered by this authority.
    Open(Live),
}

impl Talk {
    /// Whether lines 1 and 2 came.
    pub fn is_open(&self) -> bool
        ensures { result ≡ is_open self.now }
    {
        match self {
            Talk::AwaitsSchema | Talk::AwaitsDocument(_) => false,
            Talk::Open(_) => true,
        }
    }

    /// The answer to a line, and whether further lines are answered. A line 1 without fault has no text of its own: line 2 is
    /// answered for both. Out of memory changes nothing.
    pub fn tell(&mut self, alloc: Global, line: &[u8]) -> Result<Reply, AllocError>
        requires { IsGood self.old }
        ensures told { IfOk result (λ r. Replies self.old line.now (string_bytes r.text) r.more self.new) }
        ensures err { OnErr result (self.new ≡ self.old) }
        ensures good { IsGood self.new }
    {
        match self {
            Talk::AwaitsSchema => self.take_schema(alloc, line),
            Talk::AwaitsDocument(_) => self.take_document(alloc, line),
            Talk::Open(live) => Ok(Reply {
                text: live.answer(alloc, line)?,
                more: true,
            }),
        }
    }

    /// The same with a limit of work, or none.
    pub(crate) fn tell_within(
        &mut self,
        alloc: Global,
        limit: Option<u64>,
        line: &[u8],
    ) -> Result<Reply, AllocError>
        requires { IsGood self.old }
        ensures told { IfOk result (λ r. RepliesBelow limit self.old line.now (string_bytes r.text) r.more self.new) }
        ensures err { OnErr result (self.new ≡ self.old) }
        ensures good { IsGood self.new }
    {
        match limit {
            Some(limit) => self.tell_below(alloc, limit, line),
            None => self.tell(alloc, line),
        }
    }

    /// The same where the steps of a submission may go over so many tokens: one that goes over more is told the limit, and changes
    /// nothing.
    fn tell_below(&mut self, alloc: Global, limit: u64, line: &[u8]) -> Result<Reply, AllocError>
        requires { IsGood self.old }
        ensures told { IfOk result (λ r. RepliesBelow (Some limit) self.old line.now (string_bytes r.text) r.more self.new) }
        ensures err { OnErr result (self.new ≡ self.old) }
        ensures good { IsGood self.new }
    {
        match self {
            Talk::AwaitsSchema => self.take_schema(alloc, line),
            Talk::AwaitsDocument(_) => self.take_document(alloc, line),
            Talk::Open(live) => Ok(Reply {
                text: live.answer_within(alloc, limit, line)?,
                more: true,
            }),
        }
    }

    /// What is said where no further line comes: which of the lines 1 and 2 is missing, and nothing where both came.
    pub fn last_text(&self) -> &[u8]
        ensures { result.now ≡ last_text self.now }
    {
        match self {
            Talk::AwaitsSchema => "{\"fault\":2,\"line\":1}\n".as_bytes(),
            Talk::AwaitsDocument(_) => "{\"fault\":2,\"line\":2}\n".as_bytes(),
            Talk::Open(_) => "".as_bytes(),
        }
    }

    /// Takes line 1.
    fn take_schema(&mut self, alloc: Global, line: &[u8]) -> Result<Reply, AllocError>
        requires { self.old ≡ AwaitsSchema }
        ensures told { IfOk result (λ r. Replies self.old line.now (string_bytes r.text) r.more self.new) }
        ensures err { OnErr result (self.new ≡ self.old) }
        ensures good { IsGood self.new }
    {
        match schema_line(alloc, line) {
            Ok(schema) => {
                *self = Talk::AwaitsDocument(schema);
                Ok(Reply {
                    text: String::new(alloc),
                    more: true,
                })
            }
            Err(LineError::Code(code)) => Ok(Reply {
                text: opening_fault_text(alloc, code, 1)?,
                more: false,
            }),
            Err(LineError::NoMemory) => Err(AllocError),
        }
    }

    /// Takes line 2.
    fn take_document(&mut self, alloc: Global, line: &[u8]) -> Result<Reply, AllocError>
        requires { awaits_document self.old ≡ true }
        ensures told { IfOk result (λ r. Replies self.old line.now (string_bytes r.text) r.more self.new) }
        ensures err { OnErr result (self.new ≡ self.old) }
        ensures good { IsGood self.new }
    {
        match mem::replace(self, Talk::AwaitsSchema) {
            Talk::AwaitsDocument(schema) => {
                let (next, told) = after_document(alloc, schema, line);
                *self = next;
                told
            }
            Talk::AwaitsSchema | Talk::Open(_) => unreachable!(),
        }
    }
}

/// The talk after line 2, and the answer to it.
fn after_document(alloc: Global, schema: Schema, line: &[u8]) -> (Talk, Result<Reply, AllocError>)
    ensures told { IfOk result.1 (λ r. Replies (AwaitsDocument schema) line.now (string_bytes r.text) r.more result.0) }
    ensures err { OnErr result.1 (result.0 ≡ AwaitsDocument schema) }
    ensures good { IsGood result.0 }
{
    match hear_document(alloc, &schema, line) {
        Ok(Heard { text, authority }) => match authority {
            Some(authority) => {
                let live = Live {
                    schema,
                    authority,
                    ids: ClientIds::new(alloc),
                };
                (Talk::Open(live), Ok(Reply { text, more: true }))
            }
            None => (
                Talk::AwaitsDocument(schema),
                Ok(Reply { text, more: false }),
            ),
        },
        Err(AllocError) => (Talk::AwaitsDocument(schema), Err(AllocError)),
    }
}

/// What line 2 is: its answer, and the authority over the document where it is one.
#[derive(Drop)]
struct Heard {
    text: String,
    authority: Option<Authority<DocChange>>,
}

/// Reads line 2.
fn hear_document(alloc: Global, schema: &Schema, line: &[u8]) -> Result<Heard, AllocError>
    ensures { IfOk result (λ h. DocumentHeard schema.now line.now (string_bytes h.text) h.authority) }
{
    match doc_line(alloc, schema, line) {
        Ok(doc) => Ok(Heard {
            text: opened_text(alloc, doc.size())?,
            authority: Some(Authority::new(alloc, doc)?),
        }),
        Err(LineError::Code(code)) => Ok(Heard {
            text: opening_fault_text(alloc, code, 2)?,
            authority: None,
        }),
        Err(LineError::NoMemory) => Err(AllocError),
    }
}

impl Service for Talk {
    ghost use Rattle.pm_talk.specs.Talk.{Replies, IsGood, last_text};
    ghost use Rattle.pm_talk.specs.Texts.{no_memory};

    ghost good = { IsGood };

    ghost replies = { Replies };

    ghost last = { last_text };

    ghost no_memory = { no_memory };

    fn reply(&mut self, alloc: Global, line: &[u8]) -> Result<Reply, AllocError> {
        self.tell(alloc, line)
    }

    fn last(&self) -> &[u8] {
        self.last_text()
    }

    fn no_memory(&self) -> &[u8] {
        no_memory()
    }
}
