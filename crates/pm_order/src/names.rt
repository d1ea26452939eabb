//! Names of documents and schemas.
ghost use Rattle.std.specs.Prelude.{◌≡◌};
ghost use Rattle.std.specs.List.{list_all};
ghost use Rattle.serde_json.specs.View.{view};
ghost use Rattle.pm_head.specs.Answers.{Gives};
ghost use Rattle.pm_order.specs.Names.{is_name as name_of, is_name_letter as name_letter, name_in};

use pm_head::{Code, LineError};
use pm_opjson::text_in;
use pm_value::Text;
use serde_json::Value;
use std::alloc::Global;

/// Whether a text is the name of a document or a schema: 1 to 64 ASCII letters, digits, `_` and `-`.
pub(crate) fn is_name(text: &str) -> bool
    ensures { result ≡ name_of text.now }
{
    !text.is_empty() && text.len() <= 64 && all_name_letters(text)
}

fn all_name_letters(text: &str) -> bool
    ensures { result ≡ list_all name_letter text.now }
{
    text.as_bytes().iter().all(|b| is_name_letter(*b))
}

fn is_name_letter(byte: u8) -> bool
    ensures { result ≡ name_letter byte }
{
    (97 <= byte && byte <= 122)
        || (65 <= byte && byte <= 90)
        || (48 <= byte && byte <= 57)
        || byte == 95
        || byte == 45
}

/// The name at `key`. `WrongShape` comes where there is no text, and `BadRooms` where it is no name.
#[tactic(auto, unfolding(crate::specs::Names::name_in))]
pub fn name_in(alloc: Global, json: &Value, key: &str) -> Result<Text, LineError>
    ensures { Gives (λ t. t) result (name_in key.now (view json.now)) }
{
    let text = text_in(json, key)?;
    if !is_name(text) {
        return Err(LineError::Code(Code::BadRooms));
    }
    Ok(Text::from_str(alloc, text)?)
}
