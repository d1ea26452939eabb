//! The head of a session file.
ghost use Rattle.std.specs.Prelude.{◌≡◌, ◌≤◌, length, drop, IfOk, Ok, Result};
ghost use Rattle.pm_tokens.specs.Faults.{Valid};
ghost use Rattle.pm_schema.specs.Documents.{documents_of};
ghost use Rattle.pm_head.specs.Answers.{Reads};
ghost use Rattle.pm_head.specs.Lines.{lines_of};
ghost use Rattle.pm_head.specs.Heads.{AfterDoc, AfterSchema, HeadIs};

use crate::clients::{ClientEntry, clients_line};
use crate::code::Code;
use crate::document::doc_line;
use crate::fault::{LineError, Refusal, SessionError};
use crate::form::Form;
use crate::lines::first_line;
use crate::schema::schema_line;
use pm_list::Listed;
use pm_node::Document;
use pm_schema::Schema;
use std::alloc::Global;

/// What the first three lines of a session file say.
#[derive(Drop)]
pub struct Head {
    /// The schema, which line 1 writes.
    pub schema: Schema,
    /// The first document: the one that line 2 writes, or the top type filled where line 2 is null.
    pub doc: Document,
    /// The clients that line 3 lists, from 1 to 32 of them.
    pub clients: Listed<ClientEntry>,
}

/// What the first three lines of the input say, in a file of this form, and the rest of the input after them. A line ends at
/// LF, and a last piece without one is a line where it isn't empty. The rest is part of the input, and takes no memory.
///
/// # Errors
///
/// The least faulty of the three lines, with the code of its first fault. Each code may come but `InputTooLong`, `TooManyLines`,
/// `NoSuchMessage`, `OpNotAllowed` and `WrongEnter`. A late client's entry is `WrongShape` where the form is `Plain`.
pub fn read_head(alloc: Global, form: Form, input: &[u8]) -> Result<(Head, &[u8]), SessionError>
    ensures read { Reads (λ p. p.0) (HeadIs form (lines_of input.now)) result }
    ensures rest { IfOk result (λ p. lines_of p.1.now ≡ drop 3 (lines_of input.now)) }
    ensures valid { IfOk result (λ p. Valid (documents_of p.0.schema.spec) p.0.doc) }
    ensures few { IfOk result (λ p. length p.0.clients ≤ 32) }
{
    let Some((line, rest)) = first_line(input) else {
        return Err(SessionError::Refused(Refusal {
            line: 1,
            code: Code::MissingLine,
        }));
    };
    match schema_line(alloc, line) {
        Ok(schema) => after_schema(alloc, form, schema, rest),
        Err(LineError::Code(code)) => Err(SessionError::Refused(Refusal { line: 1, code })),
        Err(LineError::NoMemory) => Err(SessionError::NoMemory),
    }
}

/// The head after line 1.
fn after_schema(
    alloc: Global,
    form: Form,
    schema: Schema,
    input: &[u8],
) -> Result<(Head, &[u8]), SessionError>
    ensures read { Reads (λ p. p.0) (AfterSchema form (Ok schema) (lines_of input.now)) result }
    ensures rest { IfOk result (λ p. lines_of p.1.now ≡ drop 2 (lines_of input.now)) }
    ensures valid { IfOk result (λ p. Valid (documents_of p.0.schema.spec) p.0.doc) }
    ensures few { IfOk result (λ p. length p.0.clients ≤ 32) }
{
    let Some((line, rest)) = first_line(input) else {
        return Err(SessionError::Refused(Refusal {
            line: 2,
            code: Code::MissingLine,
        }));
    };
    match doc_line(alloc, &schema, line) {
        Ok(doc) => after_doc(alloc, form, schema, doc, rest),
        Err(LineError::Code(code)) => Err(SessionError::Refused(Refusal { line: 2, code })),
        Err(LineError::NoMemory) => Err(SessionError::NoMemory),
    }
}

/// The head after line 2.
fn after_doc(
    alloc: Global,
    form: Form,
    schema: Schema,
    doc: Document,
    input: &[u8],
) -> Result<(Head, &[u8]), SessionError>
    requires { Valid (documents_of schema.spec) doc }
    ensures read { Reads (λ p. p.0) (AfterDoc form schema (Ok doc) (lines_of input.now)) result }
    ensures rest { IfOk result (λ p. lines_of p.1.now ≡ drop 1 (lines_of input.now)) }
    ensures valid { IfOk result (λ p. Valid (documents_of p.0.schema.spec) p.0.doc) }
    ensures few { IfOk result (λ p. length p.0.clients ≤ 32) }
{
    let Some((line, rest)) = first_line(input) else {
        return Err(SessionError::Refused(Refusal {
            line: 3,
            code: Code::MissingLine,
        }));
    };
    match clients_line(alloc, form, line) {
        Ok(clients) => Ok((
            Head {
                schema,
                doc,
                clients,
            },
            rest,
        )),
        Err(LineError::Code(code)) => Err(SessionError::Refused(Refusal { line: 3, code })),
        Err(LineError::NoMemory) => Err(SessionError::NoMemory),
    }
}
