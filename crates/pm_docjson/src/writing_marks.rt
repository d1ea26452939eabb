//! Marks as JSON values.
ghost use Rattle.std.specs.Prelude.{◌≡◌, true, IfOk, OnOk, Ok};
ghost use Rattle.std.specs.List.{AllByRecursion};
ghost use Rattle.serde_json.specs.View.{view, items_view};
ghost use Rattle.pm_docjson.specs.Reading.{mark_of};
ghost use Rattle.pm_docjson.specs.Writing.{typed, mark_written, marks_written};
ghost use Rattle.pm_docjson.specs.Writable.{mark_fits};
ghost use Rattle.serde_json.specs.View.{members_view};

use crate::types::mark_name;
use crate::writing_attrs::put_attrs;
use pm_attrs::Attrs;
use pm_marks::Mark;
use pm_schema::{AnyType, Schema};
use serde_json::{Map, Value as Json, put};
use std::alloc::{AllocError, Global};

/// The JSON value of a mark, which is read back as the same mark where the mark can be written.
pub fn write_mark(alloc: Global, schema: &Schema, mark: &Mark<Attrs>) -> Result<Json, AllocError>
    ensures written { IfOk result (λ j. view j ≡ mark_written schema.now.spec mark.now) }
    ensures again { IfOk result (λ j. mark_fits schema.now.spec mark.now ≡ true → mark_of schema.now.spec (view j) ≡ Ok mark.now) }
{
    mark_json(alloc, schema, mark)
}

fn mark_json(alloc: Global, schema: &Schema, mark: &Mark<Attrs>) -> Result<Json, AllocError>
    ensures written { IfOk result (λ j. view j ≡ mark_written schema.now.spec mark.now) }
    ensures again { OnOk result (mark_fits schema.now.spec mark.now ≡ true
        → mark_of schema.now.spec (mark_written schema.now.spec mark.now) ≡ Ok mark.now) }
{
    let mut map = typed(alloc, mark_name(schema, mark.kind))?;
    put_attrs(
        &mut map,
        alloc,
        schema,
        AnyType::Mark(mark.kind),
        &mark.attrs,
    )?;
    Ok(Json::Object(map))
}

/// The JSON values of marks.
pub fn write_marks(
    alloc: Global,
    schema: &Schema,
    marks: &[Mark<Attrs>],
) -> Result<Vec<Json>, AllocError>
    ensures written { IfOk result (λ v. items_view v.items ≡ marks_written schema.now.spec marks.now) }
    ensures again { OnOk result (AllByRecursion (λ m. mark_fits schema.now.spec m ≡ true
        → mark_of schema.now.spec (mark_written schema.now.spec m) ≡ Ok m) marks.now) }
{
    let mut items = Vec::new(alloc);
    for mark in marks {
        items.push(mark_json(alloc, schema, mark)?)?;
    }
    Ok(items)
}

/// An object with the name of a type.
pub fn typed(alloc: Global, name: &str) -> Result<Map<String, Json>, AllocError>
    ensures { IfOk result (λ m. members_view m.entries ≡ typed name.now) }
{
    let mut map = Map::new(alloc);
    let name = Json::try_from_str(alloc, name)?;
    put(&mut map, alloc, "type", name)?;
    Ok(map)
}
