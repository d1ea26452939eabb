//! How the editors stand. A raw client has no line.
ghost use Rattle.std.specs.Prelude.{◌≡◌, ◌++◌, codes, decimal, IfOk, OnOk, string_bytes};
ghost use Rattle.pm_report.specs.Words.{◌&◌};
ghost use Rattle.pm_report.specs.Report.{name_at, doc_text, standing_words, client_line, member_line, client_lines, settled_line, settled_member, settled_lines};

use crate::written::{push_cursors, push_numbers, push_serials};
use pm_apply::DocChange;
use pm_client::Client;
use pm_doctext::push_document;
use pm_head::ClientEntry;
use pm_schema::Schema;
use pm_session::Member;
use std::alloc::{AllocError, Global};

/// A line for each editor: its name, version, pending serials, dropped serials, cursors' positions and document.
pub fn client_lines(
    alloc: Global,
    schema: &Schema,
    entries: &[ClientEntry],
    members: &[Member<DocChange>],
) -> Result<String, AllocError>
    ensures { IfOk result (λ s. string_bytes s ≡ client_lines schema.now.spec entries.now 0 members.now) }
{
    let mut text = String::new(alloc);
    for (i, member) in members.iter().enumerate() {
        push_member(alloc, schema, &mut text, name_at(entries, i), member)?;
    }
    Ok(text)
}

/// The name of client i.
pub(crate) fn name_at(entries: &[ClientEntry], i: usize) -> &str
    ensures { result.now ≡ name_at entries.now i }
{
    match entries.get(i) {
        Some(entry) => entry.name.as_str(),
        None => "",
    }
}

fn push_member(
    alloc: Global,
    schema: &Schema,
    text: &mut String,
    name: &str,
    member: &Member<DocChange>,
) -> Result<(), AllocError>
    ensures { OnOk result (string_bytes text.new ≡ string_bytes text.old ++ member_line schema.now.spec name.now member.now) }
{
    match member {
        Member::Editor(client) => push_client(alloc, schema, text, name, client),
        Member::Raw { name: _, serial: _ } => Ok(()),
    }
}

fn push_client(
    alloc: Global,
    schema: &Schema,
    text: &mut String,
    name: &str,
    client: &Client<DocChange>,
) -> Result<(), AllocError>
    ensures { OnOk result (string_bytes text.new ≡ string_bytes text.old ++ client_line schema.now.spec name.now client.now) }
{
    push_standing(alloc, text, name, client)?;
    push_client_document(alloc, schema, text, client)
}

/// An editor's document, with a blank before it, and the end of the line.
fn push_client_document(
    alloc: Global,
    schema: &Schema,
    text: &mut String,
    client: &Client<DocChange>,
) -> Result<(), AllocError>
    ensures { OnOk result (string_bytes text.new ≡ string_bytes text.old ++ (codes " " ++ (doc_text schema.now.spec client.now.doc ++ codes "\n"))) }
{
    text.push_str(" ")?;
    push_document(alloc, schema, text, client.doc())?;
    text.push_str("\n")
}

/// An editor's line up to its document.
fn push_standing(
    alloc: Global,
    text: &mut String,
    name: &str,
    client: &Client<DocChange>,
) -> Result<(), AllocError>
    ensures { OnOk result (string_bytes text.new ≡ string_bytes text.old ++ standing_words name.now client.now) }
{
    push_head(text, "client", name, client.version())?;
    push_serials(alloc, text, client.pending())?;
    push_numbers(text, client.dropped())?;
    push_cursors(alloc, text, client.cursors())
}

/// The word that a line begins with, the client's name and its version.
fn push_head(text: &mut String, word: &str, name: &str, version: u64) -> Result<(), AllocError>
    ensures { OnOk result (string_bytes text.new ≡ string_bytes text.old ++ (word.now & name.now & decimal version)) }
{
    write!(text, "{word} {name} {version}")
}

/// Appends a line for each editor to the text: its name, version, dropped serials and cursors' positions.
pub(crate) fn push_settled(
    alloc: Global,
    text: &mut String,
    entries: &[ClientEntry],
    members: &[Member<DocChange>],
) -> Result<(), AllocError>
    ensures { OnOk result (string_bytes text.new ≡ string_bytes text.old ++ settled_lines entries.now 0 members.now) }
{
    for (i, member) in members.iter().enumerate() {
        push_settled_member(alloc, text, name_at(entries, i), member)?;
    }
    Ok(())
}

fn push_settled_member(
    alloc: Global,
    text: &mut String,
    name: &str,
    member: &Member<DocChange>,
) -> Result<(), AllocError>
    ensures { OnOk result (string_bytes text.new ≡ string_bytes text.old ++ settled_member name.now member.now) }
{
    match member {
        Member::Editor(client) => push_settled_client(alloc, text, name, client),
        Member::Raw { name: _, serial: _ } => Ok(()),
    }
}

fn push_settled_client(
    alloc: Global,
    text: &mut String,
    name: &str,
    client: &Client<DocChange>,
) -> Result<(), AllocError>
    ensures { OnOk result (string_bytes text.new ≡ string_bytes text.old ++ settled_line name.now client.now) }
{
    push_head(text, "settled", name, client.version())?;
    push_numbers(text, client.dropped())?;
    push_cursors(alloc, text, client.cursors())?;
    text.push_str("\n")
}
