//! A client's talk, by what came of it so far.
ghost use Rattle.std.specs.Prelude.{◌≡◌, ◌<◌, ◌^◌, true, [], length, IfOk, OnOk, OnErr, string_bytes};
ghost use Rattle.pm_tokens.specs.Faults.{Valid};
ghost use Rattle.pm_schema.specs.Documents.{documents_of};
ghost use Rattle.pm_client.specs.Clients.{entered_client};
ghost use Rattle.pm_head.specs.Answers.{Faults};
ghost use Rattle.pm_talk.specs.Texts.{opening_fault_text};
ghost use Rattle.pm_told.specs.Texts.{entered_text};
ghost use Rattle.pm_editor.specs.declared.talk.ClientTalk.TheVariants.{AwaitsSchema, AwaitsDocument, AwaitsClient};
ghost use Rattle.pm_editor.specs.Talk.{Replies, is_open, awaits_document, awaits_client, IsGood, IsFaulty, last_text};

use crate::editor::Editor;
use pm_apply::DocChange;
use pm_asked::entry_line;
use pm_client::Client;
use pm_head::{LineError, doc_line, schema_line};
use pm_node::Document;
use pm_schema::Schema;
use pm_serve::{Reply, Service};
use pm_talk::{no_memory, opening_fault_text};
use pm_told::entered_text;
use std::alloc::{AllocError, Global};
use std::mem;

/// A client's talk, by what came of it so far.
#[derive(Drop)]
pub enum ClientTalk {
    /// Line 1 is awaited, a schema.
    AwaitsSchema,
    /// Line 2 is awaited, a document of this schema, or `null` for its top type filled.
    AwaitsDocument(Schema),
    /// Line 3 is awaited, which says who the client is, and at which version it comes. The document is that of the log's first
    /// steps up to this version.
    AwaitsClient(Schema, Document),
    /// Each line is answered by this editor.
    Open(Editor),
}

impl ClientTalk {
    /// Whether lines 1 to 3 came.
    pub fn is_open(&self) -> bool
        ensures { result ≡ is_open self.now }
    {
        match self {
            ClientTalk::AwaitsSchema
            | ClientTalk::AwaitsDocument(_)
            | ClientTalk::AwaitsClient(_, _) => false,
            ClientTalk::Open(_) => true,
        }
    }

    /// The answer to a line, and whether further lines are answered. Lines 1 and 2 without fault have no text of their own: line 3
    /// is answered for them. Out of memory changes nothing.
    pub fn tell(&mut self, alloc: Global, line: &[u8]) -> Result<Reply, AllocError>
        requires { IsGood self.old }
        ensures told { IfOk result (λ r. Replies self.old line.now (string_bytes r.text) r.more self.new) }
        ensures err { OnErr result (self.new ≡ self.old) }
        ensures good { IsGood self.new }
    {
        match self {
            ClientTalk::AwaitsSchema => self.take_schema(alloc, line),
            ClientTalk::AwaitsDocument(_) => self.take_document(alloc, line),
            ClientTalk::AwaitsClient(_, _) => self.take_client(alloc, line),
            ClientTalk::Open(editor) => Ok(Reply {
                text: editor.answer(alloc, line)?,
                more: true,
            }),
        }
    }

    /// What is said where no further line comes: which of the lines 1 to 3 is missing, and nothing where all came.
    pub fn last_text(&self) -> &[u8]
        ensures { result.now ≡ last_text self.now }
    {
        match self {
            ClientTalk::AwaitsSchema => "{\"fault\":2,\"line\":1}\n".as_bytes(),
            ClientTalk::AwaitsDocument(_) => "{\"fault\":2,\"line\":2}\n".as_bytes(),
            ClientTalk::AwaitsClient(_, _) => "{\"fault\":2,\"line\":3}\n".as_bytes(),
            ClientTalk::Open(_) => "".as_bytes(),
        }
    }

    /// Takes line 1.
    fn take_schema(&mut self, alloc: Global, line: &[u8]) -> Result<Reply, AllocError>
        requires { self.old ≡ AwaitsSchema }
        ensures told { IfOk result (λ r. Replies self.old line.now (string_bytes r.text) r.more self.new) }
        ensures err { OnErr result (self.new ≡ self.old) }
        ensures good { IsGood self.new }
    {
        match schema_line(alloc, line) {
            Ok(schema) => {
                *self = ClientTalk::AwaitsDocument(schema);
                Ok(silent(alloc))
            }
            Err(error) => faulty(alloc, error, 1),
        }
    }

    /// Takes line 2.
    fn take_document(&mut self, alloc: Global, line: &[u8]) -> Result<Reply, AllocError>
        requires { awaits_document self.old ≡ true }
        ensures told { IfOk result (λ r. Replies self.old line.now (string_bytes r.text) r.more self.new) }
        ensures err { OnErr result (self.new ≡ self.old) }
        ensures good { IsGood self.new }
    {
        match mem::replace(self, ClientTalk::AwaitsSchema) {
            ClientTalk::AwaitsDocument(schema) => {
                let (next, told) = after_document(alloc, schema, line);
                *self = next;
                told
            }
            ClientTalk::AwaitsSchema | ClientTalk::AwaitsClient(_, _) | ClientTalk::Open(_) =>
                unreachable!(),
        }
    }

    /// Takes line 3.
    fn take_client(&mut self, alloc: Global, line: &[u8]) -> Result<Reply, AllocError>
        requires awaits { awaits_client self.old ≡ true }
        requires good { IsGood self.old }
        ensures told { IfOk result (λ r. Replies self.old line.now (string_bytes r.text) r.more self.new) }
        ensures err { OnErr result (self.new ≡ self.old) }
        ensures good { IsGood self.new }
    {
        match mem::replace(self, ClientTalk::AwaitsSchema) {
            ClientTalk::AwaitsClient(schema, doc) => {
                let (next, told) = after_entry(alloc, schema, doc, line);
                *self = next;
                told
            }
            ClientTalk::AwaitsSchema | ClientTalk::AwaitsDocument(_) | ClientTalk::Open(_) =>
                unreachable!(),
        }
    }
}

/// The talk after line 2, and the answer to it.
fn after_document(
    alloc: Global,
    schema: Schema,
    line: &[u8],
) -> (ClientTalk, Result<Reply, AllocError>)
    ensures told { IfOk result.1 (λ r. Replies (AwaitsDocument schema) line.now (string_bytes r.text) r.more result.0) }
    ensures err { OnErr result.1 (result.0 ≡ AwaitsDocument schema) }
    ensures good { IsGood result.0 }
{
    match doc_line(alloc, &schema, line) {
        Ok(doc) => (ClientTalk::AwaitsClient(schema, doc), Ok(silent(alloc))),
        Err(error) => (ClientTalk::AwaitsDocument(schema), faulty(alloc, error, 2)),
    }
}

/// The talk after line 3, and the answer to it.
fn after_entry(
    alloc: Global,
    schema: Schema,
    doc: Document,
    line: &[u8],
) -> (ClientTalk, Result<Reply, AllocError>)
    requires { Valid (documents_of schema.spec) doc }
    ensures told { IfOk result.1 (λ r. Replies (AwaitsClient schema doc) line.now (string_bytes r.text) r.more result.0) }
    ensures err { OnErr result.1 (result.0 ≡ AwaitsClient schema doc) }
    ensures good { IsGood result.0 }
{
    let entry = match entry_line(alloc, line) {
        Ok(entry) => entry,
        Err(error) => {
            return (
                ClientTalk::AwaitsClient(schema, doc),
                faulty(alloc, error, 3),
            );
        }
    };
    match comes(alloc, &doc, entry.version) {
        Ok((text, client)) => {
            let editor = Editor {
                schema,
                client,
                id: entry.id,
                serials: 0,
            };
            (ClientTalk::Open(editor), Ok(Reply { text, more: true }))
        }
        Err(AllocError) => (ClientTalk::AwaitsClient(schema, doc), Err(AllocError)),
    }
}

/// The answer to line 3, and the client that comes with this document at this version.
fn comes(
    alloc: Global,
    doc: &Document,
    version: u32,
) -> Result<(String, Client<DocChange>), AllocError>
    ensures text { IfOk result (λ p. string_bytes p.0 ≡ entered_text (length doc.now.tokens) version) }
    ensures client { IfOk result (λ p. p.1 ≡ entered_client 0 version doc.now) }
    ensures small { OnOk result (version < 2 ^ 64) }
{
    let text = entered_text(alloc, doc.size(), version)?;
    let client = Client::entered(alloc, 0, u64::from(version), doc.copy()?)?;
    Ok((text, client))
}

/// The reply to a line without an answer of its own.
fn silent(alloc: Global) -> Reply
    ensures text { string_bytes result.text ≡ [] }
    ensures more { result.more ≡ true }
{
    Reply {
        text: String::new(alloc),
        more: true,
    }
}

/// The reply to a fault of this one of the lines 1 to 3, which is the last one.
fn faulty(alloc: Global, error: LineError, line: u32) -> Result<Reply, AllocError>
    ensures { IfOk result (λ r. IsFaulty error line (string_bytes r.text) r.more) }
{
    match error {
        LineError::Code(code) => Ok(Reply {
            text: opening_fault_text(alloc, code, line)?,
            more: false,
        }),
        LineError::NoMemory => Err(AllocError),
    }
}

impl Service for ClientTalk {
    ghost use Rattle.pm_talk.specs.Texts.{no_memory};
    ghost use Rattle.pm_editor.specs.Talk.{Replies, IsGood, last_text};

    ghost good = { IsGood };

    ghost replies = { Replies };

    ghost last = { last_text };

    ghost no_memory = { no_memory };

    fn reply(&mut self, alloc: Global, line: &[u8]) -> Result<Reply, AllocError> {
        self.tell(alloc, line)
    }

    fn last(&self) -> &[u8] {
        self.last_text()
    }

    fn no_memory(&self) -> &[u8] {
        no_memory()
    }
}
