//! Ann's client works with an authority in the same program: she types, submits and undoes.
ghost use Rattle.pm_engine.specs.Words.{Valid, documents_of, meaning, IsKept, Kin};

use crate::applying::{BEFORE, SCHEMA, document_of, insertion, schema_of};
use anyhow::{Result, ensure};
use pm_engine::standing::{edit, exchange, undo};
use pm_engine::{
    Authority, Client, DocChange, Document, MessageKind, Schema, Taken, document_text,
};
use std::alloc::Global;

/// The client puts a letter in, which is pending then.
fn type_letter(
    alloc: Global,
    schema: &Schema,
    authority: &Authority<DocChange>,
    client: &mut Client<DocChange>,
    at: u64,
    letter: char,
) -> Result<()>
    requires { Kin meaning schema.now authority.now.first authority.now.log client.old }
    ensures { Kin meaning schema.now authority.now.first authority.now.log client.new }
{
    let step = DocChange::new(alloc, insertion(alloc, schema, at, letter)?)?;
    let made = edit(alloc, schema, authority, client, vec![in alloc; step]?);
    ensure!(made.is_ok(), "the step does not apply");
    Ok(())
}

/// What Ann does, one after another.
fn work(
    alloc: Global,
    schema: &Schema,
    authority: &mut Authority<DocChange>,
    ann: &mut Client<DocChange>,
) -> Result<()>
    requires kept { IsKept meaning schema.now authority.old }
    requires stands { Kin meaning schema.now authority.old.first authority.old.log ann.old }
{
    type_letter(alloc, schema, authority, ann, 1, 'A')?;
    type_letter(alloc, schema, authority, ann, 4, 'B')?;
    let taken = exchange(alloc, schema, authority, ann, MessageKind::Submit)?;
    ensure!(
        taken == Taken::Confirmed { own: 2 },
        "both steps are in the log"
    );
    ensure!(
        undo(alloc, schema, authority, ann)? == 1,
        "Ann undoes her last step"
    );
    Ok(())
}

/// The JSON text of Ann's document when all is done.
fn worked(alloc: Global, schema: &Schema, doc: &Document) -> Result<String>
    requires { Valid (documents_of schema.now.spec) doc.now }
{
    let mut authority = Authority::<DocChange>::new(alloc, doc.copy()?)?;
    let mut ann = Client::new(alloc, 1, doc.copy()?)?;
    work(alloc, schema, &mut authority, &mut ann)?;
    Ok(document_text(alloc, schema, ann.doc())?)
}

fn from_text(alloc: Global, schema: &Schema) -> Result<String> {
    let doc = document_of(alloc, schema, BEFORE)?;
    worked(alloc, schema, &doc)
}

const AFTER: &str =
    r#"{"content":[{"content":[{"text":"Aab","type":"text"}],"type":"paragraph"}],"type":"doc"}"#;

#[test]
fn an_undo_takes_the_last_step_back(rt: HostRuntime) -> Result<()> {
    let schema = schema_of(rt.alloc(), SCHEMA)?;
    assert!(rt; from_text(rt.alloc(), &schema)?.as_str() == AFTER);
    Ok(())
}
