//! Reads a schema, a document and a step, and applies the step.
ghost use Rattle.std.specs.Prelude.{IfOk};
ghost use Rattle.pm_engine.specs.Words.{Valid, documents_of};

use anyhow::{Result, anyhow};
use pm_engine::{
    Change, DocChange, Document, Failed, Json, Schema, Step, document_text, read_node, read_schema,
    read_step,
};
use std::alloc::Global;

pub(crate) const SCHEMA: &str = r#"{"nodes":[
    {"name":"doc","content":"paragraph+"},{"name":"paragraph","content":"text*"},{"name":"text"}]}"#;

/// The open of the paragraph stands from 0 to 1, "a" from 1 to 2, and "b" from 2 to 3.
pub(crate) const BEFORE: &str =
    r#"{"type":"doc","content":[{"type":"paragraph","content":[{"type":"text","text":"ab"}]}]}"#;

const AFTER: &str =
    r#"{"content":[{"content":[{"text":"a!b","type":"text"}],"type":"paragraph"}],"type":"doc"}"#;

pub(crate) fn schema_of(alloc: Global, text: &str) -> Result<Schema> {
    let json = Json::from_str(alloc, text)?;
    Ok(read_schema(alloc, &json)?)
}

/// The document that a JSON text writes, where it is valid under the schema.
pub(crate) fn document_of(alloc: Global, schema: &Schema, text: &str) -> Result<Document>
    ensures { IfOk result (Valid (documents_of schema.now.spec)) }
{
    let json = Json::from_str(alloc, text)?;
    let document = Document::new(alloc, read_node(alloc, schema, &json)?)?;
    document.check(alloc, schema)?;
    Ok(document)
}

/// The step that puts a letter at a position.
pub(crate) fn insertion(alloc: Global, schema: &Schema, at: u64, letter: char) -> Result<Step> {
    let text = format!(in alloc;
        r#"{{"stepType":"replace","from":{at},"to":{at},
        "slice":{{"content":[{{"type":"text","text":"{letter}"}}]}}}}"#
    )?;
    let json = Json::from_str(alloc, text.as_str())?;
    Ok(read_step(alloc, schema, &json)?)
}

/// The JSON text of a document after a step, or the reason why the step does not apply.
fn applied(alloc: Global, schema: &Schema, before: &Document, step: Step) -> Result<String>
    requires { Valid (documents_of schema.now.spec) before.now }
{
    match DocChange::new(alloc, step)?.apply(alloc, schema, before) {
        Ok(after) => Ok(document_text(alloc, schema, &after)?),
        Err(Failed::Reason(reason)) => Ok(format!(in alloc; "{reason}")?),
        Err(Failed::NoMemory) => Err(anyhow!("out of memory")),
    }
}

fn inserted(alloc: Global, schema: &Schema, at: u64) -> Result<String> {
    let before = document_of(alloc, schema, BEFORE)?;
    let step = insertion(alloc, schema, at, '!')?;
    applied(alloc, schema, &before, step)
}

/// Positions, and what comes of a letter there.
const ROWS: [(u64, &str); 2] = [
    (2, AFTER),
    (9, "the positions are not in order within the document"),
];

#[test]
fn a_step_is_applied_or_tells_why_not(rt: HostRuntime) -> Result<()> {
    let schema = schema_of(rt.alloc(), SCHEMA)?;
    for (at, want) in &ROWS {
        assert!(rt; inserted(rt.alloc(), &schema, *at)?.as_str() == *want);
    }
    Ok(())
}
