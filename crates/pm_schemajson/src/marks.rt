//! Mark types.
ghost use Rattle.std.specs.Prelude.{◌≡◌, codes, map};
ghost use Rattle.serde_json.specs.View.{items_of};
ghost use Rattle.pm_schemajson.specs.Answers.{Gives};
ghost use Rattle.pm_schemajson.specs.Fields.{field as field_of};
ghost use Rattle.pm_schemajson.specs.Reading.{mark_fields as fields_of_mark, mark_list as list_of_marks, marks_of as marks_from};
ghost use Rattle.pm_schemajson.specs.Views.{mark_type, mark_types};

use crate::attrs::attrs_of;
use crate::error::{Field, SchemaReadError};
use crate::fields::{array, field, object, text_if, truth_or};
use crate::named::{groups_of, name_of};
use pm_json::JsonRef;
use pm_list::Listed;
use pm_schema::MarkSpec;
use std::alloc::Global;

#[tactic(auto, unfolding(crate::specs::Reading::mark_fields))]
fn mark_fields<J: JsonRef>(
    alloc: Global,
    version: u32,
    json: J,
) -> Result<MarkSpec, SchemaReadError>
    ensures { Gives mark_type result (fields_of_mark version (J.seen json)) }
{
    let name = name_of(alloc, json)?;
    let attrs = attrs_of(alloc, version, json)?;
    let inclusive = truth_or(json, "inclusive", Field::Inclusive, true)?;
    let excludes = text_if(alloc, json, "excludes", Field::Excludes)?;
    let groups = groups_of(alloc, json)?;
    Ok(MarkSpec {
        name,
        attrs,
        inclusive,
        excludes,
        groups,
    })
}

#[tactic(auto, unfolding(crate::specs::Reading::mark_list))]
fn mark_list<J: JsonRef>(
    alloc: Global,
    version: u32,
    items: &[J],
) -> Result<Listed<MarkSpec>, SchemaReadError>
    ensures { Gives mark_types result (list_of_marks version (items_of (map J.seen items.now))) }
{
    let mut marks = Listed::new(alloc);
    for &item in items {
        object(item, Field::Marks)?;
        marks.push(mark_fields(alloc, version, item)?)?;
    }
    Ok(marks)
}

/// The field `marks` of a schema.
#[tactic(auto, unfolding(crate::specs::Reading::marks_of))]
pub(crate) fn marks_of<J: JsonRef>(
    alloc: Global,
    version: u32,
    json: J,
) -> Result<Listed<MarkSpec>, SchemaReadError>
    ensures { Gives mark_types result (marks_from version (field_of (codes "marks") (J.seen json))) }
{
    match field(json, "marks") {
        None => Ok(Listed::new(alloc)),
        Some(value) => {
            let items = array(alloc, value, Field::Marks)?;
            mark_list(alloc, version, items.as_slice())
        }
    }
}
