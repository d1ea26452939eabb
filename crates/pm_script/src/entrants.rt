//! Late clients, each of which has to enter on a line of the file.
ghost use Rattle.std.specs.Prelude.{◌≡◌, not, map, option_map, length, vec_len, IfOk};
ghost use Rattle.std.specs.List.{list_all};
ghost use Rattle.serde_json.specs.View.{view};
ghost use Rattle.pm_head.specs.Lines.{lines_of};
ghost use Rattle.pm_script.specs.Entrants.{text_at, entrant_of, all_enter};
ghost use Rattle.pm_script.specs.Entered.{after_line, after_entrant};

use pm_head::{ClientEntry, first_line, json_of};
use serde_json::Value;
use std::alloc::{AllocError, Global};

/// Whether each late client enters on one of the lines. They are read up to the one on which the last of them enters, and none
/// where no client is late.
pub(crate) fn all_enter(
    alloc: Global,
    clients: &[ClientEntry],
    input: &[u8],
) -> Result<bool, AllocError>
    ensures { IfOk result (λ b. b ≡ all_enter clients.now (lines_of input.now)) }
{
    let mut entered = on_time(alloc, clients)?;
    let mut rest = input;
    while !are_all(&entered) {
        let Some((line, after)) = first_line(rest) else {
            return Ok(false);
        };
        entered = after_line(alloc, clients, entered, line)?;
        rest = after;
    }
    Ok(true)
}

/// Whether each client is there from the first line on, in order.
fn on_time(alloc: Global, clients: &[ClientEntry]) -> Result<Vec<bool>, AllocError>
    ensures { IfOk result (λ v. v.items ≡ map (λ c. not c.late) clients.now) }
{
    clients.iter().map(|c| !c.late).collect(alloc)
}

fn are_all(flags: &[bool]) -> bool
    ensures { result ≡ list_all (λ f. f) flags.now }
{
    flags.iter().all(|f| *f)
}

/// Whether each client has entered by the end of the line, where these had by its beginning.
fn after_line(
    alloc: Global,
    clients: &[ClientEntry],
    entered: Vec<bool>,
    line: &[u8],
) -> Result<Vec<bool>, AllocError>
    requires { vec_len entered ≡ length clients.now }
    ensures { IfOk result (λ v. v.items ≡ after_line line.now clients.now entered.items) }
{
    let Some(json) = json_of(alloc, line)? else {
        return Ok(entered);
    };
    let Some(name) = entrant_of(&json) else {
        return Ok(entered);
    };
    after_entrant(alloc, clients, &entered, name)
}

/// Whether each client has entered, where these had before the client of this name did.
fn after_entrant(
    alloc: Global,
    clients: &[ClientEntry],
    entered: &[bool],
    name: &str,
) -> Result<Vec<bool>, AllocError>
    requires { length entered.now ≡ length clients.now }
    ensures { IfOk result (λ v. v.items ≡ after_entrant name.now clients.now entered.now) }
{
    clients
        .iter()
        .zip(entered)
        .map(|(client, had)| *had || name == client.name.as_str())
        .collect(alloc)
}

/// The name of the client that enters by an object.
fn entrant_of(json: &Value) -> Option<&str>
    ensures { option_map (λ s. s.now) result ≡ entrant_of (view json.now) }
{
    let op = text_at(json, "op")?;
    if op == "enter" {
        text_at(json, "c")
    } else {
        None
    }
}

/// The text that an object has there.
fn text_at<'a>(json: &'a Value, key: &str) -> Option<&'a str>
    ensures { option_map (λ s. s.now) result ≡ text_at key.now (view json.now) }
{
    match json.get(key) {
        Some(value) => value.as_str(),
        None => None,
    }
}
