//! Line 3: the clients.
ghost use Rattle.std.specs.Prelude.{◌≡◌, ◌≤◌, [], length, nat_eq, option_map, option_and_then, IfOk};
ghost use Rattle.std.specs.List.{list_any};
ghost use Rattle.std.specs.Cmp.Lexicographic.{pointwise};
ghost use Rattle.serde_json.specs.View.{view, items_view};
ghost use Rattle.serde_json.specs.Find.{get, as_str};
ghost use Rattle.pm_head.specs.Answers.{Gives};
ghost use Rattle.pm_head.specs.Entries.{entry_view};
ghost use Rattle.pm_head.specs.Clients.{entry_of as entry_in, object_entry as entry_in_object, raw_entry as raw_entry_in, late_entry as late_entry_in, next_client as client_behind, entries_of as entries_from, clients_of as clients_in, clients_line as line_of_clients, raw_flags};

use crate::code::Code;
use crate::fault::LineError;
use crate::form::Form;
use crate::lines::json_line;
use crate::names::is_name;
use pm_docjson::field;
use pm_list::Listed;
use pm_value::Text;
use serde_json::Value;
use std::alloc::{AllocError, Global};

/// A client as the line of clients lists it.
#[derive(Debug, Drop)]
pub struct ClientEntry {
    /// Its name: 1 to 16 characters of `a` to `z` and `0` to `9`.
    pub name: Text,
    /// Whether it is a raw client, whose submissions the session writes out, and no editor.
    pub raw: bool,
    /// Whether it comes late, by a line of its own. Such a client is an editor.
    pub late: bool,
}

/// The greatest number of clients.
const MAX_CLIENTS: usize = 32;

/// The clients that line 3 lists, in a file of this form.
#[tactic(auto, unfolding(crate::specs::Clients::clients_line))]
pub(crate) fn clients_line(
    alloc: Global,
    form: Form,
    line: &[u8],
) -> Result<Listed<ClientEntry>, LineError>
    ensures read { Gives (λ l. l) result (line_of_clients form line.now) }
    ensures few { IfOk result (λ l. length l ≤ 32) }
{
    let json = json_line(alloc, line)?;
    clients_of(alloc, form, &json)
}

#[tactic(auto, using(crate::proofs::Counts::counts), unfolding(crate::specs::Clients::clients_of))]
fn clients_of(alloc: Global, form: Form, json: &Value) -> Result<Listed<ClientEntry>, LineError>
    ensures read { Gives (λ l. l) result (clients_in form (view json.now)) }
    ensures few { IfOk result (λ l. length l ≤ 32) }
{
    let Some(items) = json.as_array() else {
        return Err(LineError::Code(Code::WrongShape));
    };
    if items.is_empty() || items.len() > MAX_CLIENTS {
        return Err(LineError::Code(Code::BadClients));
    }
    entries_of(alloc, form, items)
}

/// The entries, each of which has a well-formed name that no earlier one has.
#[tactic(auto, using(pm_list::specs::Readings::fronts), unfolding(crate::specs::Clients::entries_of))]
fn entries_of(alloc: Global, form: Form, items: &[Value]) -> Result<Listed<ClientEntry>, LineError>
    ensures read { Gives (λ l. l) result (entries_from form [] (items_view items.now)) }
    ensures few { IfOk result (λ l. length l ≤ length items.now) }
{
    let mut clients = Listed::new(alloc);
    for item in items {
        let client = next_client(alloc, form, clients.as_slice(), item)?;
        clients.push(client)?;
    }
    Ok(clients)
}

/// The entry, after these.
fn next_client(
    alloc: Global,
    form: Form,
    earlier: &[ClientEntry],
    json: &Value,
) -> Result<ClientEntry, LineError>
    ensures { Gives (λ c. c) result (client_behind form earlier.now (view json.now)) }
{
    let Some(entry) = entry_of(form, json) else {
        return Err(LineError::Code(Code::WrongShape));
    };
    if !is_name(entry.name) || is_taken(entry.name, earlier) {
        return Err(LineError::Code(Code::BadClients));
    }
    Ok(ClientEntry {
        name: Text::from_str(alloc, entry.name)?,
        raw: entry.raw,
        late: entry.late,
    })
}

/// An entry as its value holds it.
#[derive(Clone, Copy)]
struct Entry<'a> {
    name: &'a str,
    raw: bool,
    late: bool,
}

fn entry_of(form: Form, json: &Value) -> Option<Entry<'_>>
    ensures { option_map entry_view result ≡ entry_in form (view json.now) }
{
    match json {
        Value::String(name) => Some(Entry {
            name: name.as_str(),
            raw: false,
            late: false,
        }),
        Value::Object(_) => object_entry(form, json),
        _ => None,
    }
}

fn object_entry(form: Form, json: &Value) -> Option<Entry<'_>>
    ensures { option_map entry_view result ≡ entry_in_object form (view json.now) }
{
    match form {
        Form::Plain => raw_entry(json),
        Form::Late => if field(json, "raw").is_some() {
            raw_entry(json)
        } else {
            late_entry(json)
        },
    }
}

fn raw_entry(json: &Value) -> Option<Entry<'_>>
    ensures { option_map entry_view result ≡ raw_entry_in (view json.now) }
{
    let name = name_at(json, "raw")?;
    Some(Entry {
        name,
        raw: true,
        late: false,
    })
}

fn late_entry(json: &Value) -> Option<Entry<'_>>
    ensures { option_map entry_view result ≡ late_entry_in (view json.now) }
{
    let name = name_at(json, "late")?;
    Some(Entry {
        name,
        raw: false,
        late: true,
    })
}

fn name_at<'a>(json: &'a Value, key: &str) -> Option<&'a str>
    ensures { option_map (λ s. s.now) result ≡ option_and_then as_str (get key.now (view json.now)) }
{
    match json.get(key) {
        Some(value) => value.as_str(),
        None => None,
    }
}

fn is_taken(name: &str, earlier: &[ClientEntry]) -> bool
    ensures { result ≡ list_any (λ other. pointwise nat_eq name.now other.name) earlier.now }
{
    earlier.iter().any(|other| name == other.name.as_str())
}

/// Whether each client is raw, in order.
pub fn raw_flags(alloc: Global, clients: &[ClientEntry]) -> Result<Vec<bool>, AllocError>
    ensures { IfOk result (λ v. v.items ≡ raw_flags clients.now) }
{
    clients.iter().map(|c| c.raw).collect(alloc)
}
