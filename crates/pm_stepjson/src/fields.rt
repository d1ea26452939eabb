//! The fields of a step.
ghost use Rattle.std.specs.Prelude.{option_map, option_and_then};
ghost use Rattle.serde_json.specs.Find.{as_str};
ghost use Rattle.pm_list.specs.Readings.{or_fault};
ghost use Rattle.pm_value.specs.Reading.{value_of};
ghost use Rattle.pm_value.specs.Views.{plain};
ghost use Rattle.pm_docjson.specs.Reading.{mark_of};
ghost use Rattle.pm_slicejson.specs.Reading.{slice_of};
ghost use Rattle.pm_stepjson.specs.declared.fault.StepReadError.TheVariants.{Shape};
ghost use Rattle.pm_stepjson.specs.Answers.{Gives};
ghost use Rattle.pm_stepjson.specs.Fields.{as_mark, as_slice, as_value, mark_at, number_at, slice_at, structure_at, value_at};

use crate::fault::{StepReadError, mark_fault, slice_fault, value_fault};
use pm_attrs::Attrs;
use pm_docjson::{field, read_mark};
use pm_json::JsonRef;
use pm_marks::Mark;
use pm_schema::Schema;
use pm_slice::Slice;
use pm_slicejson::{as_count, read_slice};
use pm_value::Value;
use std::alloc::Global;

/// A whole number from 0 to 4,294,967,295, which must be there.
pub fn number_at<J: JsonRef>(json: J, key: &str) -> Result<u64, StepReadError>
    ensures { Gives (λ n. n) result (number_at key.now (J.seen json)) }
{
    match json.get(key) {
        Some(value) => match as_count(value) {
            Some(number) => Ok(number as u64),
            None => Err(StepReadError::Shape),
        },
        None => Err(StepReadError::Shape),
    }
}

/// The text of a field that must be there.
pub fn text_of<J: JsonRef>(field: &Option<J>) -> Result<&str, StepReadError>
    ensures { Gives (λ s. s.now) result (or_fault Shape (option_and_then as_str (option_map J.seen field.now))) }
{
    match field {
        Some(value) => match value.as_str() {
            Some(text) => Ok(text),
            None => Err(StepReadError::Shape),
        },
        None => Err(StepReadError::Shape),
    }
}

/// The truth value `structure`, which is false where it is absent or null.
pub fn structure_at<J: JsonRef>(json: J) -> Result<bool, StepReadError>
    ensures { Gives (λ b. b) result (structure_at (J.seen json)) }
{
    match field(json, "structure") {
        None => Ok(false),
        Some(value) => match value.as_bool() {
            Some(flag) => Ok(flag),
            None => Err(StepReadError::Shape),
        },
    }
}

/// The slice, which is the empty one where it is absent or null.
pub fn slice_at<J: JsonRef>(alloc: Global, schema: &Schema, json: J) -> Result<Slice, StepReadError>
    ensures { Gives (λ s. s) result (slice_at schema.now.spec (J.seen json)) }
{
    match field(json, "slice") {
        None => Ok(Slice::empty(alloc)),
        Some(value) => as_slice(alloc, schema, value),
    }
}

/// The value as a slice.
fn as_slice<J: JsonRef>(alloc: Global, schema: &Schema, json: J) -> Result<Slice, StepReadError>
    ensures { Gives (λ s. s) result (as_slice (slice_of schema.now.spec (J.seen json))) }
{
    match read_slice(alloc, schema, json) {
        Ok(slice) => Ok(slice),
        Err(error) => Err(slice_fault(error)),
    }
}

/// The mark, which must be there.
pub fn mark_at<J: JsonRef>(
    alloc: Global,
    schema: &Schema,
    json: J,
) -> Result<Mark<Attrs>, StepReadError>
    ensures { Gives (λ m. m) result (mark_at schema.now.spec (J.seen json)) }
{
    match json.get("mark") {
        Some(value) => as_mark(alloc, schema, value),
        None => Err(StepReadError::Shape),
    }
}

/// The value as a mark.
fn as_mark<J: JsonRef>(
    alloc: Global,
    schema: &Schema,
    json: J,
) -> Result<Mark<Attrs>, StepReadError>
    ensures { Gives (λ m. m) result (as_mark (mark_of schema.now.spec (J.seen json))) }
{
    match read_mark(alloc, schema, json) {
        Ok(mark) => Ok(mark),
        Err(error) => Err(mark_fault(error)),
    }
}

/// The value, which must be there; null is one.
pub fn value_at<J: JsonRef>(alloc: Global, json: J) -> Result<Value, StepReadError>
    ensures { Gives plain result (value_at (J.seen json)) }
{
    let Some(value) = json.get("value") else {
        return Err(StepReadError::Shape);
    };
    as_value(alloc, value)
}

/// The JSON value as a value.
fn as_value<J: JsonRef>(alloc: Global, json: J) -> Result<Value, StepReadError>
    ensures { Gives plain result (as_value (value_of (J.seen json))) }
{
    match json.value(alloc) {
        Ok(value) => Ok(value),
        Err(error) => Err(value_fault(error)),
    }
}
