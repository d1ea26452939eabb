//! Fields of lines.
ghost use Rattle.std.specs.Prelude.{◌≡◌};
ghost use Rattle.serde_json.specs.View.{view};
ghost use Rattle.pm_head.specs.Answers.{Gives};
ghost use Rattle.pm_order.specs.Fields.{version_in, optional_in};

use pm_docjson::field;
use pm_head::{Code, LineError};
use pm_slicejson::as_count;
use serde_json::Value;

/// The version at `version`, a whole number from 0 to 4,294,967,295, which is 0 where it is absent or null.
pub(crate) fn version_in(json: &Value) -> Result<u32, LineError>
    ensures { Gives (λ n. n) result (version_in (view json.now)) }
{
    match field(json, "version") {
        None => Ok(0),
        Some(value) => match as_count(value) {
            Some(number) => Ok(number as u32),
            None => Err(LineError::Code(Code::WrongShape)),
        },
    }
}

/// The number at the key, a whole one from 0 to 4,294,967,295, or none where it is absent or null.
pub(crate) fn optional_in(json: &Value, key: &str) -> Result<Option<u32>, LineError>
    ensures { Gives (λ n. n) result (optional_in key.now (view json.now)) }
{
    match field(json, key) {
        None => Ok(None),
        Some(value) => match as_count(value) {
            Some(number) => Ok(Some(number as u32)),
            None => Err(LineError::Code(Code::WrongShape)),
        },
    }
}
