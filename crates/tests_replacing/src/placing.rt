//! A part of a document that is put into another, as it is and as it fits, and steps that no JSON is read as.
ghost use Rattle.std.specs.Prelude.{IfOk};
ghost use Rattle.pm_tokens.specs.Faults.{Valid};
ghost use Rattle.pm_schema.specs.Documents.{documents_of};

use pm_apply::DocChange;
use pm_attrs::Attrs;
use pm_change::{Change, Failed};
use pm_docjson::document_text;
use pm_fit::{Fitted, fit};
use pm_head::{doc_line, schema_line};
use pm_marks::Mark;
use pm_node::Document;
use pm_replace::{Reason, replace};
use pm_schema::Schema;
use pm_slice::{Slice, cut};
use pm_step::{MarkStep, Marking, ReplaceStep, Step};
use pm_value::Value;
use std::alloc::Global;
use std::test::Fail;

const SCHEMA: &str = r#"{"nodes":[
    {"name":"doc","content":"paragraph+"},{"name":"paragraph","content":"text*"},{"name":"text"}],
    "marks":[{"name":"em"}]}"#;

/// A paragraph with one letter.
const LETTER: &str =
    r#"{"type":"doc","content":[{"type":"paragraph","content":[{"type":"text","text":"a"}]}]}"#;

/// The paragraphs "xy", from 0 to 4, of which y has a mark, and the empty ones from 4 to 6 and from 6 to 8.
const PARTS: &str = r#"{"type":"doc","content":[{"type":"paragraph","content":[
    {"type":"text","text":"x"},{"type":"text","text":"y","marks":[{"type":"em"}]}]},
    {"type":"paragraph"},{"type":"paragraph"}]}"#;

/// The document that a JSON text writes.
fn document(alloc: Global, schema: &Schema, text: &str) -> Result<Document, Fail>
    ensures { IfOk result (λ d. Valid (documents_of schema.now.spec) d) }
{
    Ok(doc_line(alloc, schema, text.as_bytes())?)
}

/// The part between two positions.
fn part(alloc: Global, schema: &Schema, from: usize, to: usize) -> Result<Slice, Fail> {
    let doc = document(alloc, schema, PARTS)?;
    Ok(cut(alloc, &doc, from, to)?)
}

/// The document's JSON, or `!` and the reason.
fn told(
    alloc: Global,
    schema: &Schema,
    outcome: Result<Document, Failed<Reason>>,
) -> Result<String, Fail> {
    match outcome {
        Ok(next) => Ok(document_text(alloc, schema, &next)?),
        Err(Failed::Reason(reason)) => Ok(format!(in alloc; "!{reason:?}")?),
        Err(Failed::NoMemory) => Err(Fail::new("no memory")),
    }
}

/// What becomes of the document by the step.
fn applied(alloc: Global, schema: &Schema, before: &Document, step: Step) -> Result<String, Fail>
    requires { Valid (documents_of schema.now.spec) before.now }
{
    let change = DocChange::new(alloc, step)?;
    told(alloc, schema, change.apply(alloc, schema, before))
}

/// The document by the step that fits the slice in after the letter, or `!none`.
fn fitted(alloc: Global, schema: &Schema, before: &Document, slice: &Slice) -> Result<String, Fail>
    requires { Valid (documents_of schema.now.spec) before.now }
{
    if before.size() < 2 {
        return Err(Fail::new("no range of the document"));
    }
    match fit(alloc, schema, before, 2, 2, slice)? {
        Some(Fitted { step, doc: _made }) => applied(alloc, schema, before, step),
        None => Ok(String::from_str(alloc, "!none")?),
    }
}

/// A step far after any document.
fn far(alloc: Global) -> Step {
    Step::Replace(ReplaceStep {
        from: u64::MAX,
        to: u64::MAX,
        slice: Slice::empty(alloc),
        structure: false,
    })
}

/// A step that adds an em with an attribute, which it does not have.
fn unfit(alloc: Global) -> Result<Step, Fail> {
    let attrs = Attrs::new(vec![in alloc; Value::Null]?);
    let mark = Mark { kind: 0, attrs };
    Ok(Step::Mark(MarkStep {
        from: 1,
        to: 2,
        marking: Marking::Add(mark),
    }))
}

/// What is done to the paragraph with one letter.
#[derive(Clone, Copy)]
enum Act {
    /// The part between two positions is put after the letter.
    Put(usize, usize),
    /// The part between two positions is put there as it fits.
    Fit(usize, usize),
    /// A step far after any document is applied.
    Far,
    /// A step with a mark that the schema does not know is applied.
    Unfit,
}

/// What becomes of the paragraph with one letter.
fn found(alloc: Global, schema: &Schema, act: Act) -> Result<String, Fail> {
    let before = document(alloc, schema, LETTER)?;
    match act {
        Act::Put(from, to) => {
            let slice = part(alloc, schema, from, to)?;
            told(alloc, schema, replace(alloc, schema, &before, 2, 2, &slice))
        }
        Act::Fit(from, to) => {
            let slice = part(alloc, schema, from, to)?;
            fitted(alloc, schema, &before, &slice)
        }
        Act::Far => applied(alloc, schema, &before, far(alloc)),
        Act::Unfit => applied(alloc, schema, &before, unfit(alloc)?),
    }
}

/// A paragraph of two letters.
const TWO: &str =
    r#"{"content":[{"content":[{"text":"ax","type":"text"}],"type":"paragraph"}],"type":"doc"}"#;

/// A paragraph of three letters, the last one with a mark.
const THREE: &str =
    r#"{"content":[{"content":[{"text":"ax","type":"text"},{"marks":[{"type":"em"}],"text":"y","type":"text"}],"type":"paragraph"}],"type":"doc"}"#;

/// What is done, and what becomes of it.
const ROWS: [(Act, &str); 8] = [
    (Act::Put(1, 2), TWO),
    (Act::Fit(1, 2), TWO),
    (Act::Put(0, 4), "!Content { at: 1 }"),
    (Act::Fit(0, 4), THREE),
    (Act::Put(4, 8), "!Content { at: 1 }"),
    (Act::Fit(4, 8), "!none"),
    (Act::Far, "!Range"),
    (Act::Unfit, "!Content { at: 2 }"),
];

#[test]
fn a_part_is_put_in_and_an_unknown_step_is_refused(rt: HostRuntime) -> Result<(), Fail> {
    let schema = schema_line(rt.alloc(), SCHEMA.as_bytes())?;
    for (act, want) in &ROWS {
        assert!(rt;
            found(rt.alloc(), &schema, *act)?.as_str() == *want,
            "{want}"
        );
    }
    Ok(())
}
