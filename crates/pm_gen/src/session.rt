//! A session made from a number.
ghost use Rattle.std.specs.Prelude.{◌≡◌, ◌≤◌, ◌<◌, ◌-◌, ◌++◌, IfOk, OnOk, string_bytes};
ghost use Rattle.pm_gen.specs.Bounds.{InBounds};
ghost use Rattle.pm_gen.specs.Session.{names, further_name, further_names, turn_lines, generated};

use crate::drawing::Draws;
use crate::lines::turn_line;
use std::alloc::{AllocError, Global};

/// ProseMirror's basic schema with lists, in short.
const SCHEMA: &str =
    "{\"nodes\":[{\"name\":\"doc\",\"content\":\"block+\"},{\"name\":\"paragraph\",\"content\":\"inline*\",\"group\":\"block\"},{\"name\":\"blockquote\",\"content\":\"block+\",\"group\":\"block\"},{\"name\":\"heading\",\"content\":\"inline*\",\"group\":\"block\",\"attrs\":{\"level\":{\"default\":1}}},{\"name\":\"bullet_list\",\"content\":\"list_item+\",\"group\":\"block\"},{\"name\":\"list_item\",\"content\":\"paragraph block*\"},{\"name\":\"image\",\"group\":\"inline\",\"inline\":true,\"attrs\":{\"src\":{}}},{\"name\":\"text\",\"group\":\"inline\"}],\"marks\":[{\"name\":\"link\",\"attrs\":{\"href\":{}},\"inclusive\":false},{\"name\":\"em\"},{\"name\":\"strong\"},{\"name\":\"code\",\"excludes\":\"_\"}]}";

/// A paragraph of ten digits.
const DOCUMENT: &str =
    "{\"content\":[{\"content\":[{\"text\":\"0123456789\",\"type\":\"text\"}],\"type\":\"paragraph\"}],\"type\":\"doc\"}";

/// The session file made from a number: the schema, a document of one paragraph, clients `c1`, `c2` and so on, and so many
/// rounds in which each client in order has one line, chosen by numbers drawn one after another. The same arguments give
/// the same bytes.
pub fn generate(alloc: Global, clients: u32, rounds: u32, number: u64) -> Result<String, AllocError>
    requires { InBounds clients rounds }
    ensures { IfOk result (λ s. string_bytes s ≡ generated clients rounds number) }
{
    let mut text = String::new(alloc);
    text.push_str(SCHEMA)?;
    text.push_str("\n")?;
    text.push_str(DOCUMENT)?;
    text.push_str("\n")?;
    push_names(alloc, &mut text, clients)?;
    text.push_str("\n")?;
    push_turns(alloc, &mut text, clients, clients * rounds, number)?;
    Ok(text)
}

/// Appends the clients' names as a list to the text.
fn push_names(alloc: Global, text: &mut String, clients: u32) -> Result<(), AllocError>
    ensures { OnOk result (string_bytes text.new ≡ string_bytes text.old ++ names clients) }
{
    text.push_str("[\"c1\"")?;
    push_further_names(alloc, text, clients)?;
    text.push_str("]")
}

/// Appends the names from client 2 on to the text.
fn push_further_names(alloc: Global, text: &mut String, clients: u32) -> Result<(), AllocError>
    ensures { OnOk result (string_bytes text.new ≡ string_bytes text.old ++ further_names 2 (clients - 1)) }
{
    for client in 1..clients {
        text.push_str(further_name(alloc, client + 1)?.as_str())?;
    }
    Ok(())
}

/// A name after another one.
fn further_name(alloc: Global, client: u32) -> Result<String, AllocError>
    ensures { IfOk result (λ s. string_bytes s ≡ further_name client) }
{
    format!(in alloc; ",\"c{client}\"")
}

/// Appends so many op lines to the text.
fn push_turns(
    alloc: Global,
    text: &mut String,
    clients: u32,
    count: u32,
    number: u64,
) -> Result<(), AllocError>
    requires some { 1 ≤ clients }
    requires few { clients ≤ 32 }
    ensures { OnOk result (string_bytes text.new ≡ string_bytes text.old ++ turn_lines clients 0 count number) }
{
    let mut draws = Draws { number };
    for i in 0..count {
        let turn = draws.turn();
        text.push_str(turn_line(alloc, i % clients + 1, &turn)?.as_str())?;
    }
    Ok(())
}
