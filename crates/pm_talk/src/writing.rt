//! The answers that tell the log and the document.
ghost use Rattle.std.specs.Prelude.{◌≡◌, ◌++◌, false, take, drop, codes, decimal, IfOk, OnOk, string_bytes};
ghost use Rattle.serde_json.specs.Written.{comma_if, compact_text};
ghost use Rattle.pm_stepjson.specs.Writing.{step_written};
ghost use Rattle.pm_talk.specs.Ids.{id_at};
ghost use Rattle.pm_talk.specs.Live.{id_items, step_items, doc_text, since_text, front};

use crate::ids::ClientIds;
use pm_apply::DocChange;
use pm_authority::{Authority, Named};
use pm_doctext::push_document;
use pm_schema::Schema;
use pm_stepjson::step_text;
use std::alloc::{AllocError, Global};

/// The document, and the log's length.
pub(crate) fn doc_text(
    alloc: Global,
    schema: &Schema,
    authority: &Authority<DocChange>,
) -> Result<String, AllocError>
    ensures { IfOk result (λ s. string_bytes s ≡ doc_text schema.now.spec authority.now) }
{
    let mut text = String::new(alloc);
    text.push_str("{\"doc\":")?;
    push_document(alloc, schema, &mut text, authority.doc())?;
    push_version(&mut text, authority.log().len())?;
    Ok(text)
}

/// The log's length, at the end of a line.
fn push_version(text: &mut String, length: usize) -> Result<(), AllocError>
    ensures { OnOk result (string_bytes text.new ≡ string_bytes text.old ++ (codes ",\"version\":" ++ (decimal length ++ codes "}\n"))) }
{
    write!(text, ",\"version\":{length}}}\n")
}

/// The entries of the log from the version on, the IDs of the clients that made them, and the log's length.
pub(crate) fn since_text(
    alloc: Global,
    schema: &Schema,
    ids: &ClientIds,
    log: &[Named<DocChange>],
    version: u32,
) -> Result<String, AllocError>
    ensures { IfOk result (λ s. string_bytes s ≡ since_text schema.now.spec ids.now log.now version) }
{
    let entries = entries_from(log, version as usize);
    let mut text = String::new(alloc);
    text.push_str("{\"clientIDs\":[")?;
    push_ids(&mut text, ids, entries)?;
    text.push_str(",\"steps\":[")?;
    push_steps(alloc, schema, &mut text, entries)?;
    push_version(&mut text, log.len())?;
    Ok(text)
}

/// The log up to so many entries after the version, or all of it.
pub(crate) fn front(
    log: &[Named<DocChange>],
    version: u32,
    most: Option<u32>,
) -> &[Named<DocChange>]
    ensures { result.now ≡ front version most log.now }
{
    match most {
        Some(most) => up_to(log, version as usize + most as usize),
        None => log,
    }
}

/// The log up to the place, or all of it where it ends before.
fn up_to(log: &[Named<DocChange>], place: usize) -> &[Named<DocChange>]
    ensures { result.now ≡ take place log.now }
{
    if place < log.len() {
        &log[..place]
    } else {
        log
    }
}

/// The log from the place on; nothing beyond its end.
fn entries_from(log: &[Named<DocChange>], place: usize) -> &[Named<DocChange>]
    ensures { result.now ≡ drop place log.now }
{
    if place < log.len() {
        &log[place..]
    } else {
        &[]
    }
}

/// Appends the IDs of the clients that made the steps to the text, and the end of their list.
fn push_ids(
    text: &mut String,
    ids: &ClientIds,
    entries: &[Named<DocChange>],
) -> Result<(), AllocError>
    ensures { OnOk result (string_bytes text.new ≡ string_bytes text.old ++ id_items false ids.now entries.now) }
{
    let mut later = false;
    for entry in entries {
        push_item(text, later, ids.id(entry.name.client as usize))?;
        later = true;
    }
    text.push_str("]")
}

/// An item of a list, the first one or a later one.
fn push_item(text: &mut String, later: bool, item: &str) -> Result<(), AllocError>
    ensures { OnOk result (string_bytes text.new ≡ string_bytes text.old ++ (comma_if later ++ item.now)) }
{
    if later {
        text.push_str(",")?;
    }
    text.push_str(item)
}

/// Appends the steps to the text, and the end of their list.
fn push_steps(
    alloc: Global,
    schema: &Schema,
    text: &mut String,
    entries: &[Named<DocChange>],
) -> Result<(), AllocError>
    ensures { OnOk result (string_bytes text.new ≡ string_bytes text.old ++ step_items false schema.now.spec entries.now) }
{
    let mut later = false;
    for entry in entries {
        push_step(alloc, schema, text, later, entry)?;
        later = true;
    }
    text.push_str("]")
}

/// A step, the first one of a list or a later one.
fn push_step(
    alloc: Global,
    schema: &Schema,
    text: &mut String,
    later: bool,
    entry: &Named<DocChange>,
) -> Result<(), AllocError>
    ensures { OnOk result (string_bytes text.new ≡ string_bytes text.old ++ (comma_if later ++ compact_text (step_written schema.now.spec entry.now.change))) }
{
    let step = step_text(alloc, schema, entry.change.step())?;
    push_item(text, later, step.as_str())
}
