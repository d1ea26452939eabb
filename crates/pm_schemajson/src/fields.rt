//! The fields of a JSON object.
ghost use Rattle.std.specs.Prelude.{◌≡◌, map, option_map, IfOk};
ghost use Rattle.serde_json.specs.View.{items_of};
ghost use Rattle.serde_json.specs.Find.{as_array, as_object};
ghost use Rattle.pm_value.specs.Kept.{InOrder};
ghost use Rattle.pm_json.specs.Members.{members_of};
ghost use Rattle.pm_schemajson.specs.Answers.{Gives};
ghost use Rattle.pm_schemajson.specs.Fields.{field as field_of, text_if as text_of, text_or as text_or_of, truth_or as truth_of, of_kind};

use crate::error::{Field, SchemaReadError};
use pm_json::JsonRef;
use pm_value::Text;
use std::alloc::Global;

/// A field that may be absent, which null stands for too.
pub(crate) fn field<J: JsonRef>(json: J, key: &str) -> Option<J>
    ensures { option_map J.seen result ≡ field_of key.now (J.seen json) }
{
    match json.get(key) {
        Some(value) => if value.is_null() { None } else { Some(value) },
        None => None,
    }
}

/// A text that may be absent.
pub(crate) fn text_if<J: JsonRef>(
    alloc: Global,
    json: J,
    key: &str,
    name: Field,
) -> Result<Option<Text>, SchemaReadError>
    ensures { Gives (λ t. t) result (text_of name (field_of key.now (J.seen json))) }
{
    match field(json, key) {
        None => Ok(None),
        Some(value) => match value.as_str() {
            Some(text) => Ok(Some(Text::from_str(alloc, text)?)),
            None => Err(SchemaReadError::Shape { field: name }),
        },
    }
}

/// A text that may be absent, and then is this one.
pub(crate) fn text_or<J: JsonRef>(
    alloc: Global,
    json: J,
    key: &str,
    name: Field,
    absent: &str,
) -> Result<Text, SchemaReadError>
    ensures { Gives (λ t. t) result (text_or_of absent.now name (field_of key.now (J.seen json))) }
{
    match field(json, key) {
        None => Ok(Text::from_str(alloc, absent)?),
        Some(value) => match value.as_str() {
            Some(text) => Ok(Text::from_str(alloc, text)?),
            None => Err(SchemaReadError::Shape { field: name }),
        },
    }
}

/// A truth value, and what it is where it is absent.
pub(crate) fn truth_or<J: JsonRef>(
    json: J,
    key: &str,
    name: Field,
    absent: bool,
) -> Result<bool, SchemaReadError>
    ensures { Gives (λ b. b) result (truth_of absent name (field_of key.now (J.seen json))) }
{
    match field(json, key) {
        None => Ok(absent),
        Some(value) => match value.as_bool() {
            Some(truth) => Ok(truth),
            None => Err(SchemaReadError::Shape { field: name }),
        },
    }
}

/// The entries of a list.
pub(crate) fn array<J: JsonRef>(
    alloc: Global,
    value: J,
    name: Field,
) -> Result<Vec<J>, SchemaReadError>
    ensures { Gives (λ v. items_of (map J.seen v.items)) result (of_kind name (as_array (J.seen value))) }
{
    match value.items(alloc)? {
        Some(items) => Ok(items),
        None => Err(SchemaReadError::Shape { field: name }),
    }
}

/// A fault of the field where the value is no object.
pub(crate) fn object<J: JsonRef>(value: J, name: Field) -> Result<(), SchemaReadError>
    ensures { Gives (λ u. u) result (of_kind name (option_map (λ m. tt) (as_object (J.seen value)))) }
{
    if value.is_object() {
        Ok(())
    } else {
        Err(SchemaReadError::Shape { field: name })
    }
}

/// The members of an object, in byte order of their keys.
pub(crate) fn members<'a, J: JsonRef>(
    alloc: Global,
    value: &'a J,
    name: Field,
) -> Result<Vec<(&'a str, J)>, SchemaReadError>
    ensures read { Gives (λ v. members_of (map (λ m. (m.0.now, J.seen m.1)) v.items)) result (of_kind name (as_object (J.seen value.now))) }
    ensures ordered { IfOk result (λ v. InOrder (map (λ m. m.0.now) v.items)) }
{
    match value.members(alloc)? {
        Some(members) => Ok(members),
        None => Err(SchemaReadError::Shape { field: name }),
    }
}
