//! Attributes as JSON values.
ghost use Rattle.std.specs.Prelude.{◌≡◌, true, IfOk, OnOk, Ok};
ghost use Rattle.serde_json.specs.View.{members_view};
ghost use Rattle.pm_value.specs.Views.{plains};
ghost use Rattle.pm_schema.specs.Attrs.{IsType, attrs_of};
ghost use Rattle.pm_schema.specs.Types.{fit_attrs};
ghost use Rattle.pm_value.specs.Told.{paired};
ghost use Rattle.pm_docjson.specs.Values.{keys};
ghost use Rattle.pm_docjson.specs.Reading.{given_in, attrs_read};
ghost use Rattle.pm_docjson.specs.Members.{attr_members, attrs_field, put_attrs};

use crate::types::attr_count;
use pm_attrs::Attrs;
use pm_schema::{AnyType, Schema};
use pm_value::Value;
use serde_json::{Map, Value as Json, put};
use std::alloc::{AllocError, Global};

/// Puts the attributes of a type in, where it has some: as many as it declares and values are there.
pub fn put_attrs(
    map: &mut Map<String, Json>,
    alloc: Global,
    schema: &Schema,
    kind: AnyType,
    attrs: &Attrs,
) -> Result<(), AllocError>
    ensures put { OnOk result (members_view map.new.entries
        ≡ put_attrs (keys (attrs_of schema.now.spec kind)) attrs.now (members_view map.old.entries)) }
    ensures again { OnOk result (fit_attrs (attrs_of schema.now.spec kind) attrs.now ≡ true
        → attrs_read (attrs_of schema.now.spec kind) (attrs_field (keys (attrs_of schema.now.spec kind)) attrs.now) ≡ Ok attrs.now) }
{
    let count = attr_count(schema, kind);
    if count == 0 {
        return Ok(());
    }
    let object = attr_object(alloc, schema, kind, attrs.values())?;
    put(map, alloc, "attrs", Json::Object(object))?;
    Ok(())
}

/// The values under their names.
fn attr_object(
    alloc: Global,
    schema: &Schema,
    kind: AnyType,
    values: &[Value],
) -> Result<Map<String, Json>, AllocError>
    requires { IsType schema.now.spec kind }
    ensures wrote { IfOk result (λ m. members_view m.entries
        ≡ attr_members (keys (attrs_of schema.now.spec kind)) (plains values.now)) }
    ensures read { IfOk result (λ m. fit_attrs (attrs_of schema.now.spec kind) (plains values.now) ≡ true
        → given_in (members_view m.entries) ≡ Ok (paired (keys (attrs_of schema.now.spec kind)) (plains values.now))) }
{
    let mut map = Map::new(alloc);
    let mut i = schema.attr_count(kind).min(values.len());
    while i > 0 {
        i -= 1;
        let json = values[i].to_json(alloc)?;
        put(&mut map, alloc, schema.attr_name(kind, i), json)?;
    }
    Ok(map)
}
