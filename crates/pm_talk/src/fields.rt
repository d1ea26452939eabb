//! The ID of a client in a line.
ghost use Rattle.std.specs.Prelude.{◌≡◌};
ghost use Rattle.serde_json.specs.View.{view};
ghost use Rattle.pm_head.specs.Answers.{Gives};
ghost use Rattle.pm_talk.specs.Fields.{is_id, id_in, id_from};

use pm_head::{Code, LineError};
use pm_value::Text;
use serde_json::Value;
use std::alloc::Global;

/// The greatest number of bytes of an ID, as its JSON text.
pub(crate) const MAX_ID: usize = 1_024;

/// The ID of a client at `clientID`, a text or a whole number, as its JSON text. `WrongShape` comes where it is absent or neither, and
/// `BadClients` where it has more than 1,024 bytes.
pub fn id_in(alloc: Global, json: &Value) -> Result<Text, LineError>
    ensures { Gives (λ t. t) result (id_in (view json.now)) }
{
    match json.get("clientID") {
        Some(value) => id_from(alloc, value),
        None => Err(LineError::Code(Code::WrongShape)),
    }
}

/// The value as an ID: a text or a whole number, as its JSON text. `WrongShape` comes where it is neither, and `BadClients` where it
/// has more than 1,024 bytes.
pub fn id_from(alloc: Global, json: &Value) -> Result<Text, LineError>
    ensures { Gives (λ t. t) result (id_from (view json.now)) }
{
    if !is_id(json) {
        return Err(LineError::Code(Code::WrongShape));
    }
    let text = json.to_string(alloc)?;
    if text.len() > MAX_ID {
        return Err(LineError::Code(Code::BadClients));
    }
    Ok(Text::from_str(alloc, text.as_str())?)
}

/// Whether the value is a text or a whole number.
fn is_id(json: &Value) -> bool
    ensures { result ≡ is_id (view json.now) }
{
    match json {
        Value::String(_) => true,
        Value::Number(number) => !number.is_f64(),
        _ => false,
    }
}
