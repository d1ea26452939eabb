//! The fields of a JSON object.
ghost use Rattle.std.specs.Prelude.{◌≡◌, option_map, option_and_then};
ghost use Rattle.serde_json.specs.Find.{as_str};
ghost use Rattle.pm_list.specs.Readings.{or_fault};
ghost use Rattle.pm_docjson.specs.declared.fault.DocReadError.TheVariants.{Shape};
ghost use Rattle.pm_docjson.specs.Answers.{Gives};
ghost use Rattle.pm_docjson.specs.Fields.{field};

use crate::fault::DocReadError;
use pm_json::JsonRef;

/// A field that may be absent, which null stands for too.
pub fn field<J: JsonRef>(json: J, key: &str) -> Option<J>
    ensures { option_map J.seen result ≡ field key.now (J.seen json) }
{
    match json.get(key) {
        Some(value) => if value.is_null() { None } else { Some(value) },
        None => None,
    }
}

/// The text of a field that must be there.
pub fn text_of<J: JsonRef>(field: &Option<J>) -> Result<&str, DocReadError>
    ensures { Gives (λ s. s.now) result (or_fault Shape (option_and_then as_str (option_map J.seen field.now))) }
{
    match field {
        Some(value) => match value.as_str() {
            Some(text) => Ok(text),
            None => Err(DocReadError::Shape),
        },
        None => Err(DocReadError::Shape),
    }
}
