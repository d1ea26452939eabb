//! The fields of an op line. One that must be there and is absent, and one of another kind than it must be, is of a wrong
//! shape; no call takes memory.
ghost use Rattle.std.specs.Prelude.{◌≡◌, option_and_then};
ghost use Rattle.serde_json.specs.Find.{as_i64, as_number};
ghost use Rattle.serde_json.specs.View.{view};
ghost use Rattle.pm_list.specs.Readings.{or_fault};
ghost use Rattle.pm_slicejson.specs.Numbers.{as_count};
ghost use Rattle.pm_head.specs.Answers.{Gives};
ghost use Rattle.pm_opjson.specs.Fields.{text_in, number_in, depth_in, lost_in, side_in, as_side, event_in};

use pm_docjson::field;
use pm_head::{Code, LineError};
use pm_map::Side;
use pm_slicejson::as_count;
use serde_json::Value;

/// The text at `key`. `WrongShape` comes where there is none.
pub fn text_in<'a>(json: &'a Value, key: &str) -> Result<&'a str, LineError>
    ensures { Gives (λ s. s.now) result (text_in key.now (view json.now)) }
{
    match json.get(key) {
        Some(value) => match value.as_str() {
            Some(text) => Ok(text),
            None => Err(LineError::Code(Code::WrongShape)),
        },
        None => Err(LineError::Code(Code::WrongShape)),
    }
}

/// The number at `key`, a whole one from 0 to 4,294,967,295. `WrongShape` comes where there is none.
pub fn number_in(json: &Value, key: &str) -> Result<u64, LineError>
    ensures { Gives (λ n. n) result (number_in key.now (view json.now)) }
{
    match json.get(key) {
        Some(value) => count_of(value),
        None => Err(LineError::Code(Code::WrongShape)),
    }
}

/// The number at `key`, as `number_in` reads it, for what counts by `u32`: events, versions.
pub fn count_in(json: &Value, key: &str) -> Result<u32, LineError>
    ensures { Gives (λ n. n) result (number_in key.now (view json.now)) }
{
    match json.get(key) {
        Some(value) => match as_count(value) {
            Some(number) => Ok(number as u32),
            None => Err(LineError::Code(Code::WrongShape)),
        },
        None => Err(LineError::Code(Code::WrongShape)),
    }
}

/// The value as a whole number from 0 to 4,294,967,295.
fn count_of(json: &Value) -> Result<u64, LineError>
    ensures { Gives (λ n. n) result (or_fault Code.WrongShape (as_count (view json.now))) }
{
    match as_count(json) {
        Some(number) => Ok(number as u64),
        None => Err(LineError::Code(Code::WrongShape)),
    }
}

/// Whether an answer is lost, by `lost`; false where that is absent or null. `WrongShape` comes where it is no truth value.
pub fn lost_in(json: &Value) -> Result<bool, LineError>
    ensures { Gives (λ b. b) result (lost_in (view json.now)) }
{
    match field(json, "lost") {
        None => Ok(false),
        Some(value) => match value.as_bool() {
            Some(lost) => Ok(lost),
            None => Err(LineError::Code(Code::WrongShape)),
        },
    }
}

/// A cursor's side, by `side`: 1 is `After` and -1 is `Before`. It is `After` where that is absent or null. `WrongShape` comes
/// where it is anything else.
pub fn side_in(json: &Value) -> Result<Side, LineError>
    ensures { Gives (λ s. s) result (side_in (view json.now)) }
{
    match field(json, "side") {
        None => Ok(Side::After),
        Some(value) => match side_of(value) {
            Some(side) => Ok(side),
            None => Err(LineError::Code(Code::WrongShape)),
        },
    }
}

/// The value as a side.
#[tactic(auto, using(crate::proofs::Sides::sides))]
fn side_of(json: &Value) -> Option<Side>
    ensures { result ≡ option_and_then as_side (option_and_then as_i64 (as_number (view json.now))) }
{
    match json.as_i64() {
        Some(1) => Some(Side::After),
        Some(-1) => Some(Side::Before),
        _ => None,
    }
}

/// How many nodes an edit splits or joins, by `depth`: a whole number from 0 to 4,294,967,295, and 1 where it is absent or
/// null. `WrongShape` comes where it is anything else.
pub fn depth_in(json: &Value) -> Result<u64, LineError>
    ensures { Gives (λ n. n) result (depth_in (view json.now)) }
{
    match field(json, "depth") {
        None => Ok(1),
        Some(value) => count_of(value),
    }
}

/// An edit's event number, by `event`: a whole number from 0 to 4,294,967,295, and `None` where it is absent or null.
/// `WrongShape` comes where it is anything else.
pub fn event_in(json: &Value) -> Result<Option<u32>, LineError>
    ensures { Gives (λ e. e) result (event_in (view json.now)) }
{
    match field(json, "event") {
        None => Ok(None),
        Some(value) => match as_count(value) {
            Some(number) => Ok(Some(number as u32)),
            None => Err(LineError::Code(Code::WrongShape)),
        },
    }
}
