//! Whole numbers in JSON.
ghost use Rattle.std.specs.Prelude.{◌≡◌};
ghost use Rattle.pm_docjson.specs.Answers.{Gives};
ghost use Rattle.pm_slicejson.specs.Numbers.{as_count, count_at};

use pm_docjson::{DocReadError, field};
use pm_json::JsonRef;

/// The greatest number that is read.
const MAX: u64 = 4_294_967_295;

/// A whole number from 0 to 4,294,967,295, if the value is one. It takes no memory.
pub fn as_count<J: JsonRef>(json: J) -> Option<usize>
    ensures { result ≡ as_count (J.seen json) }
{
    match json.as_u64() {
        Some(number) => if number > MAX {
            None
        } else {
            Some(number as usize)
        },
        None => None,
    }
}

/// The number under the key, from 0 to 4,294,967,295, which is 0 where it is absent or null. `Shape` comes where it is any
/// other value. It takes no memory.
pub fn count_at<J: JsonRef>(json: J, key: &str) -> Result<usize, DocReadError>
    ensures { Gives (λ n. n) result (count_at key.now (J.seen json)) }
{
    match field(json, key) {
        None => Ok(0),
        Some(value) => match as_count(value) {
            Some(number) => Ok(number),
            None => Err(DocReadError::Shape),
        },
    }
}
