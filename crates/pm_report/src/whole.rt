//! The report of a session.
ghost use Rattle.std.specs.Prelude.{◌≡◌, ◌++◌, length, codes, decimal, IfOk, OnOk, string_bytes};
ghost use Rattle.pm_report.specs.Words.{◌&◌, line};
ghost use Rattle.pm_report.specs.Outcomes.{outcome_lines};
ghost use Rattle.pm_report.specs.Report.{name_at, doc_text, step_text, entry_lines, settled_lines};

use crate::outcomes::{Numbered, push_outcomes};
use crate::standing::{name_at, push_settled};
use pm_apply::DocChange;
use pm_authority::Named;
use pm_doctext::push_document;
use pm_head::ClientEntry;
use pm_node::Document;
use pm_schema::Schema;
use pm_session::Room;
use pm_stepjson::step_text;
use std::alloc::{AllocError, Global};

/// The report: what became of each line, which is `outcomes` in the order in which they are told; how the editors stood
/// before they settled, which is `standing`; the log after that; how the editors stand then; and the authority's document.
/// Each line ends with LF.
pub fn report(
    alloc: Global,
    schema: &Schema,
    entries: &[ClientEntry],
    outcomes: &[Numbered],
    standing: &str,
    settled: &Room<DocChange>,
) -> Result<String, AllocError>
    ensures { IfOk result (λ s. string_bytes s ≡ outcome_lines outcomes.now ++ standing.now
        ++ line (codes "log" & decimal (length settled.now.authority.log))
        ++ entry_lines schema.now.spec entries.now 1 settled.now.authority.log
        ++ settled_lines entries.now 0 settled.now.members.items
        ++ line (codes "final" & doc_text schema.now.spec settled.now.authority.doc)) }
{
    let room = room_for(outcomes.len(), settled.authority().log().len());
    let mut text = String::with_capacity(alloc, room)?;
    push_outcomes(&mut text, outcomes)?;
    text.push_str(standing)?;
    push_log(alloc, schema, &mut text, entries, settled.authority().log())?;
    push_settled(alloc, &mut text, entries, settled.members())?;
    push_final(alloc, schema, &mut text, settled.authority().doc())?;
    Ok(text)
}

/// About as many bytes as the report of a long session takes, with so many outcomes and so many steps of a few letters each, so
/// that its text need not move as it grows.
fn room_for(outcomes: usize, steps: usize) -> usize {
    let told = outcomes.saturating_mul(24);
    let log = steps.saturating_mul(128);
    told.saturating_add(log)
}

/// Appends the length of the log and its entries, counted from 1, to the text.
fn push_log(
    alloc: Global,
    schema: &Schema,
    text: &mut String,
    entries: &[ClientEntry],
    log: &[Named<DocChange>],
) -> Result<(), AllocError>
    ensures { OnOk result (string_bytes text.new ≡ string_bytes text.old ++ line (codes "log" & decimal (length log.now)) ++ entry_lines schema.now.spec entries.now 1 log.now) }
{
    push_length(text, log.len())?;
    push_entries(alloc, schema, text, entries, log)
}

fn push_length(text: &mut String, length: usize) -> Result<(), AllocError>
    ensures { OnOk result (string_bytes text.new ≡ string_bytes text.old ++ line (codes "log" & decimal length)) }
{
    write!(text, "log {length}\n")
}

fn push_entries(
    alloc: Global,
    schema: &Schema,
    text: &mut String,
    entries: &[ClientEntry],
    log: &[Named<DocChange>],
) -> Result<(), AllocError>
    ensures { OnOk result (string_bytes text.new ≡ string_bytes text.old ++ entry_lines schema.now.spec entries.now 1 log.now) }
{
    for (i, entry) in log.iter().enumerate() {
        push_entry(alloc, schema, text, entries, i + 1, entry)?;
    }
    Ok(())
}

fn push_entry(
    alloc: Global,
    schema: &Schema,
    text: &mut String,
    entries: &[ClientEntry],
    place: usize,
    entry: &Named<DocChange>,
) -> Result<(), AllocError>
    ensures { OnOk result (string_bytes text.new ≡ string_bytes text.old ++ line (decimal place & name_at entries.now entry.now.name.client & decimal entry.now.name.serial & step_text schema.now.spec entry.now.change)) }
{
    let step = step_text(alloc, schema, entry.change.step())?;
    let name = name_at(entries, entry.name.client as usize);
    push_words(text, place, name, entry.name.serial, step.as_str())
}

fn push_words(
    text: &mut String,
    place: usize,
    name: &str,
    serial: u64,
    step: &str,
) -> Result<(), AllocError>
    ensures { OnOk result (string_bytes text.new ≡ string_bytes text.old ++ line (decimal place & name.now & decimal serial & step.now)) }
{
    write!(text, "{place} {name} {serial} {step}\n")
}

/// Appends the authority's document to the text.
fn push_final(
    alloc: Global,
    schema: &Schema,
    text: &mut String,
    doc: &Document,
) -> Result<(), AllocError>
    ensures { OnOk result (string_bytes text.new ≡ string_bytes text.old ++ line (codes "final" & doc_text schema.now.spec doc.now)) }
{
    text.push_str("final ")?;
    push_document(alloc, schema, text, doc)?;
    text.push_str("\n")
}
