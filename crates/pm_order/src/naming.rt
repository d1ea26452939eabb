//! A line that gives a schema a name.
ghost use Rattle.std.specs.Prelude.{IfOk};
ghost use Rattle.serde_json.specs.View.{view};
ghost use Rattle.pm_head.specs.Answers.{Finds};
ghost use Rattle.pm_order.specs.Namings.{IsTextOf, WithText, NamedSo, NamingIs};

use crate::names::name_in;
use pm_head::{Code, LineError};
use pm_value::Text;
use serde_json::Value;
use std::alloc::{AllocError, Global};

/// The name that a schema gets, and a JSON text of the schema, by which it is told from others.
#[derive(Drop)]
pub struct Naming {
    pub name: Text,
    pub text: Text,
}

/// What a line says that gives a schema a name: `name`, and the text of `schema`, which must be there.
pub fn naming_in(alloc: Global, json: &Value) -> Result<Naming, LineError>
    ensures { Finds (NamingIs (view json.now)) result }
{
    let name = name_in(alloc, json, "name")?;
    named_so(alloc, name, json)
}

/// The name with a text of the value at `schema`.
fn named_so(alloc: Global, name: Text, json: &Value) -> Result<Naming, LineError>
    ensures { Finds (NamedSo name (view json.now)) result }
{
    match json.get("schema") {
        Some(value) => with_text(alloc, name, value),
        None => Err(LineError::Code(Code::WrongShape)),
    }
}

/// The name with a text of the value.
fn with_text(alloc: Global, name: Text, json: &Value) -> Result<Naming, LineError>
    ensures { Finds (WithText name (view json.now)) result }
{
    let text = text_of(alloc, json)?;
    Ok(Naming { name, text })
}

/// A text of the value.
fn text_of(alloc: Global, json: &Value) -> Result<Text, AllocError>
    ensures { IfOk result (IsTextOf (view json.now)) }
{
    let text = json.to_string(alloc)?;
    Text::from_str(alloc, text.as_str())
}
