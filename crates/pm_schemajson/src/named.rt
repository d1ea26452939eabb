//! The name and the groups of a type.
ghost use Rattle.std.specs.Prelude.{◌≡◌};
ghost use Rattle.pm_schemajson.specs.Answers.{Gives};
ghost use Rattle.pm_schemajson.specs.Reading.{name_of as name_from, groups_of as groups_from};

use crate::error::{Field, SchemaReadError};
use crate::fields::text_or;
use crate::words::{is_name, names};
use pm_json::JsonRef;
use pm_list::Listed;
use pm_value::Text;
use std::alloc::Global;

/// The field `name`.
#[tactic(auto, unfolding(crate::specs::Reading::name_of))]
pub(crate) fn name_of<J: JsonRef>(alloc: Global, json: J) -> Result<Text, SchemaReadError>
    ensures { Gives (λ t. t) result (name_from (J.seen json)) }
{
    match json.get("name") {
        Some(value) => match value.as_str() {
            Some(name) => if is_name(name.as_bytes()) {
                Ok(Text::from_str(alloc, name)?)
            } else {
                Err(SchemaReadError::Name { field: Field::Name })
            },
            None => Err(SchemaReadError::Shape { field: Field::Name }),
        },
        None => Err(SchemaReadError::Shape { field: Field::Name }),
    }
}

/// The field `group`.
#[tactic(auto, unfolding(crate::specs::Reading::groups_of))]
pub(crate) fn groups_of<J: JsonRef>(alloc: Global, json: J) -> Result<Listed<Text>, SchemaReadError>
    ensures { Gives (λ l. l) result (groups_from (J.seen json)) }
{
    let text = text_or(alloc, json, "group", Field::Group, "")?;
    match names(alloc, text.as_str())? {
        Some(groups) => Ok(groups),
        None => Err(SchemaReadError::Name {
            field: Field::Group,
        }),
    }
}
