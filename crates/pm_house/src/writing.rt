//! The answers that tell what the house holds.
ghost use Rattle.std.specs.Prelude.{◌≡◌, ◌++◌, false, length, IfOk, OnOk, string_bytes};
ghost use Rattle.serde_json.specs.Written.{comma_if};
ghost use Rattle.pm_house.specs.Texts.{row_front, row_end, row_text, row_items, documents_text, entries_in, tokens_in, statistics_text};

use pm_archive::Archive;
use std::alloc::{AllocError, Global};

/// All documents.
pub(crate) fn documents_text(alloc: Global, archives: &[Archive]) -> Result<String, AllocError>
    ensures { IfOk result (λ s. string_bytes s ≡ documents_text archives.now) }
{
    let mut text = String::new(alloc);
    text.push_str("{\"documents\":[")?;
    push_rows(alloc, &mut text, archives)?;
    Ok(text)
}

/// Appends documents to the text, and the end of their list.
fn push_rows(alloc: Global, text: &mut String, archives: &[Archive]) -> Result<(), AllocError>
    ensures { OnOk result (string_bytes text.new ≡ string_bytes text.old ++ row_items false archives.now) }
{
    let mut later = false;
    for archive in archives {
        push_row(alloc, text, later, archive)?;
        later = true;
    }
    text.push_str("]}\n")
}

/// Appends a document, the first one of a list or a later one.
fn push_row(
    alloc: Global,
    text: &mut String,
    later: bool,
    archive: &Archive,
) -> Result<(), AllocError>
    ensures { OnOk result (string_bytes text.new ≡ string_bytes text.old ++ (comma_if later ++ row_text archive.now)) }
{
    if later {
        text.push_str(",")?;
    }
    let row = row_text(alloc, archive)?;
    text.push_str(row.as_str())
}

/// A document: its first kept version, its name, its schema's, its size and its version.
#[tactic(auto, unfolding(crate::specs::Texts::row_text))]
fn row_text(alloc: Global, archive: &Archive) -> Result<String, AllocError>
    ensures { IfOk result (λ s. string_bytes s ≡ row_text archive.now) }
{
    let mut text = row_front(
        alloc,
        archive.from,
        archive.name.as_str(),
        archive.kind.as_str(),
    )?;
    push_end(&mut text, archive.doc.size(), archive.version())?;
    Ok(text)
}

/// A document's first kept version, its name and its schema's.
fn row_front(alloc: Global, from: u32, name: &str, kind: &str) -> Result<String, AllocError>
    ensures { IfOk result (λ s. string_bytes s ≡ row_front from name.now kind.now) }
{
    format!(in alloc; "{{\"from\":{from},\"in\":\"{name}\",\"schema\":\"{kind}\",")
}

/// Appends a document's size and its version.
fn push_end(text: &mut String, size: usize, version: u64) -> Result<(), AllocError>
    ensures { OnOk result (string_bytes text.new ≡ string_bytes text.old ++ row_end size version) }
{
    write!(text, "\"size\":{size},\"version\":{version}}}")
}

/// How many documents, entries, schemas and tokens there are.
pub(crate) fn statistics_text(
    alloc: Global,
    schemas: usize,
    archives: &[Archive],
) -> Result<String, AllocError>
    ensures { IfOk result (λ s. string_bytes s ≡ statistics_text schemas archives.now) }
{
    let documents = archives.len();
    let entries = entries_in(archives);
    let tokens = tokens_in(archives);
    format!(in alloc;
        "{{\"documents\":{documents},\"entries\":{entries},\"schemas\":{schemas},\"tokens\":{tokens}}}\n"
    )
}

/// How many entries of logs are kept.
fn entries_in(archives: &[Archive]) -> u64
    ensures { result ≡ entries_in archives.now }
{
    let mut sum = 0u64;
    for archive in archives {
        sum = sum.saturating_add(archive.log.len() as u64);
    }
    sum
}

/// How many tokens the documents have.
fn tokens_in(archives: &[Archive]) -> u64
    ensures { result ≡ tokens_in archives.now }
{
    let mut sum = 0u64;
    for archive in archives {
        sum = sum.saturating_add(archive.doc.size() as u64);
    }
    sum
}
