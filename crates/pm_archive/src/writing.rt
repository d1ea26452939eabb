//! The answers that tell the log and the document.
ghost use Rattle.std.specs.Prelude.{◌≡◌, ◌++◌, false, codes, decimal, IfOk, OnOk, string_bytes};
ghost use Rattle.serde_json.specs.Written.{comma_if, compact_text};
ghost use Rattle.pm_stepjson.specs.Writing.{step_written};
ghost use Rattle.pm_talk.specs.Ids.{id_at};
ghost use Rattle.pm_talk.specs.Live.{id_items, step_items};
ghost use Rattle.pm_archive.specs.Texts.{truth_text, reverted_text, edited_text};
ghost use Rattle.pm_archive.specs.Answers.{doc_text, entries_text};

use pm_apply::DocChange;
use pm_authority::Named;
use pm_doctext::push_document;
use pm_node::Document;
use pm_schema::Schema;
use pm_stepjson::step_text;
use pm_talk::ClientIds;
use pm_told::push_changes;
use std::alloc::{AllocError, Global};

/// A document and its version.
pub(crate) fn doc_text(
    alloc: Global,
    schema: &Schema,
    doc: &Document,
    version: u64,
) -> Result<String, AllocError>
    ensures { IfOk result (λ s. string_bytes s ≡ doc_text schema.now.spec doc.now version) }
{
    let mut text = String::new(alloc);
    text.push_str("{\"doc\":")?;
    push_document(alloc, schema, &mut text, doc)?;
    push_version(&mut text, version)?;
    Ok(text)
}

/// A version, at the end of a line.
pub(crate) fn push_version(text: &mut String, version: u64) -> Result<(), AllocError>
    ensures { OnOk result (string_bytes text.new ≡ string_bytes text.old ++ (codes ",\"version\":" ++ (decimal version ++ codes "}\n"))) }
{
    write!(text, ",\"version\":{version}}}\n")
}

/// Entries of the log, the IDs of the clients that made them, and the version behind them.
pub(crate) fn entries_text(
    alloc: Global,
    schema: &Schema,
    ids: &ClientIds,
    entries: &[Named<DocChange>],
    behind: u64,
) -> Result<String, AllocError>
    ensures { IfOk result (λ s. string_bytes s ≡ entries_text schema.now.spec ids.now entries.now behind) }
{
    let mut text = String::new(alloc);
    text.push_str("{\"clientIDs\":[")?;
    push_ids(&mut text, ids, entries)?;
    text.push_str(",\"steps\":[")?;
    push_steps(alloc, schema, &mut text, entries)?;
    push_version(&mut text, behind)?;
    Ok(text)
}

/// Steps that take entries back: from which version on they stand in the log, whether the later entries lie apart, and the steps.
pub(crate) fn reverted_text(
    alloc: Global,
    schema: &Schema,
    version: u64,
    apart: bool,
    steps: &[DocChange],
) -> Result<String, AllocError>
    ensures { IfOk result (λ s. string_bytes s ≡ reverted_text schema.now.spec version apart steps.now) }
{
    let mut text = String::new(alloc);
    push_accepted(&mut text, steps.len() as u64, version)?;
    text.push_str(",\"apart\":")?;
    push_truth(&mut text, apart)?;
    text.push_str(",\"steps\":")?;
    push_changes(alloc, schema, &mut text, steps)?;
    text.push_str("}\n")?;
    Ok(text)
}

/// Steps of an edit, and from which version on they stand in the log.
pub(crate) fn edited_text(
    alloc: Global,
    schema: &Schema,
    version: u64,
    steps: &[DocChange],
) -> Result<String, AllocError>
    ensures { IfOk result (λ s. string_bytes s ≡ edited_text schema.now.spec version steps.now) }
{
    let mut text = String::new(alloc);
    push_accepted(&mut text, steps.len() as u64, version)?;
    text.push_str(",\"steps\":")?;
    push_changes(alloc, schema, &mut text, steps)?;
    text.push_str("}\n")?;
    Ok(text)
}

/// How many steps were accepted, and from which version on they stand in the log.
fn push_accepted(text: &mut String, count: u64, version: u64) -> Result<(), AllocError>
    ensures { OnOk result (string_bytes text.new ≡ string_bytes text.old ++ (codes "{\"accepted\":{\"count\":" ++ (decimal count ++ (codes ",\"from\":" ++ (decimal version ++ codes "}"))))) }
{
    write!(
        text,
        "{{\"accepted\":{{\"count\":{count},\"from\":{version}}}"
    )
}

pub(crate) fn push_truth(text: &mut String, truth: bool) -> Result<(), AllocError>
    ensures { OnOk result (string_bytes text.new ≡ string_bytes text.old ++ truth_text truth) }
{
    if truth {
        text.push_str("true")
    } else {
        text.push_str("false")
    }
}

/// Appends the IDs of the clients that made the steps to the text, and the end of their list.
fn push_ids(
    text: &mut String,
    ids: &ClientIds,
    entries: &[Named<DocChange>],
) -> Result<(), AllocError>
    ensures { OnOk result (string_bytes text.new ≡ string_bytes text.old ++ id_items false ids.now entries.now) }
{
    let mut later = false;
    for entry in entries {
        push_item(text, later, ids.id(entry.name.client as usize))?;
        later = true;
    }
    text.push_str("]")
}

/// An item of a list, the first one or a later one.
pub(crate) fn push_item(text: &mut String, later: bool, item: &str) -> Result<(), AllocError>
    ensures { OnOk result (string_bytes text.new ≡ string_bytes text.old ++ (comma_if later ++ item.now)) }
{
    if later {
        text.push_str(",")?;
    }
    text.push_str(item)
}

/// Appends the steps to the text, and the end of their list.
fn push_steps(
    alloc: Global,
    schema: &Schema,
    text: &mut String,
    entries: &[Named<DocChange>],
) -> Result<(), AllocError>
    ensures { OnOk result (string_bytes text.new ≡ string_bytes text.old ++ step_items false schema.now.spec entries.now) }
{
    let mut later = false;
    for entry in entries {
        push_step(alloc, schema, text, later, &entry.change)?;
        later = true;
    }
    text.push_str("]")
}

/// A step, the first one of a list or a later one.
fn push_step(
    alloc: Global,
    schema: &Schema,
    text: &mut String,
    later: bool,
    step: &DocChange,
) -> Result<(), AllocError>
    ensures { OnOk result (string_bytes text.new ≡ string_bytes text.old ++ (comma_if later ++ compact_text (step_written schema.now.spec step.now))) }
{
    let step = step_text(alloc, schema, step.step())?;
    push_item(text, later, step.as_str())
}
