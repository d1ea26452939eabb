//! JSON values as marks.
ghost use Rattle.std.specs.Prelude.{codes, map};
ghost use Rattle.serde_json.specs.View.{items_of};
ghost use Rattle.pm_docjson.specs.Answers.{Gives};
ghost use Rattle.pm_docjson.specs.Fields.{field};
ghost use Rattle.pm_docjson.specs.Reading.{mark_of, mark_list, marks_of, as_set};

use crate::fault::DocReadError;
use crate::fields::{field, text_of};
use crate::reading_attrs::read_attrs;
use pm_attrs::Attrs;
use pm_json::JsonRef;
use pm_marks::{Mark, MarkSet, SetError};
use pm_schema::{AnyType, Schema};
use std::alloc::{AllocError, Global};

/// The mark of a JSON value, or its first fault in the order `type`, `attrs`: `Shape` where it is no object with a text
/// `type`, `UnknownType` where no mark type has that name, `Shape` where `attrs` is no object, and `Attr` where a value in
/// it is none, or is for an attribute that the type does not have, or one without default is missing.
#[tactic(auto, unfolding(crate::specs::Reading::mark_of))]
pub fn read_mark<J: JsonRef>(
    alloc: Global,
    schema: &Schema,
    json: J,
) -> Result<Mark<Attrs>, DocReadError>
    ensures { Gives (λ m. m) result (mark_of schema.now.spec (J.seen json)) }
{
    let value = json.get("type");
    let name = text_of(&value)?;
    let kind = schema.mark_named(name).ok_or(DocReadError::UnknownType)?;
    let attrs = read_attrs(alloc, schema, AnyType::Mark(kind), json)?;
    Ok(Mark { kind, attrs })
}

#[tactic(auto, unfolding(crate::specs::Reading::mark_list))]
fn mark_list<J: JsonRef>(
    alloc: Global,
    schema: &Schema,
    items: &[J],
) -> Result<Vec<Mark<Attrs>>, DocReadError>
    ensures { Gives (λ v. v.items) result (mark_list schema.now.spec (items_of (map J.seen items.now))) }
{
    let mut marks = Vec::new(alloc);
    for &item in items {
        marks.push(read_mark(alloc, schema, item)?)?;
    }
    Ok(marks)
}

/// The marks that the field `marks` gives, none where it is absent, or the first fault: `Shape` where the field is no array, the
/// fault of its first mark that has one by `read_mark`, and `NotASet` where the marks are no set.
#[tactic(auto, unfolding(crate::specs::Reading::marks_of))]
pub(crate) fn marks_of<J: JsonRef>(
    alloc: Global,
    schema: &Schema,
    json: J,
) -> Result<MarkSet<Attrs>, DocReadError>
    ensures { Gives (λ s. s) result (marks_of schema.now.spec (field (codes "marks") (J.seen json))) }
{
    match field(json, "marks") {
        None => Ok(MarkSet::empty(alloc)),
        Some(value) => match value.items(alloc)? {
            Some(items) => {
                let marks = mark_list(alloc, schema, items.as_slice())?;
                as_set(alloc, schema, marks)
            }
            None => Err(DocReadError::Shape),
        },
    }
}

/// The set of these marks.
fn as_set(
    alloc: Global,
    schema: &Schema,
    marks: Vec<Mark<Attrs>>,
) -> Result<MarkSet<Attrs>, DocReadError>
    ensures { Gives (λ s. s) result (as_set schema.now.spec marks.items) }
{
    match MarkSet::from_list(alloc, schema.rules(), marks) {
        Ok(set) => Ok(set),
        Err(SetError::NotASet) => Err(DocReadError::NotASet),
        Err(SetError::NoMemory) => Err(DocReadError::NoMemory),
    }
}
