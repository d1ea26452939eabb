//! The attributes that a type declares.
ghost use Rattle.std.specs.Prelude.{◌≡◌, true, codes, map, option_map, IfOk};
ghost use Rattle.serde_json.specs.Find.{get};
ghost use Rattle.pm_value.specs.Views.{plain};
ghost use Rattle.pm_value.specs.Kept.{InOrder};
ghost use Rattle.pm_json.specs.Members.{members_of};
ghost use Rattle.pm_schema.specs.Defaults.{is_kind_of_default};
ghost use Rattle.pm_schemajson.specs.Answers.{Gives};
ghost use Rattle.pm_schemajson.specs.Fields.{field as field_of};
ghost use Rattle.pm_schemajson.specs.Reading.{default_of as default_from_json, attr_of as attr_from, attr_list as attr_list_of, attrs_of as attrs_from};
ghost use Rattle.pm_schemajson.specs.Versions.{is_kept};
ghost use Rattle.pm_schemajson.specs.Views.{attribute, attributes};

use crate::error::{Field, SchemaReadError};
use crate::fields::{field, members, object};
use crate::versions::validate_of;
use pm_json::JsonRef;
use pm_list::Listed;
use pm_schema::{AttrSpec, AttrSpecs};
use pm_value::{Kinds, Text, Value};
use std::alloc::Global;

/// The default in the entry of an attribute.
fn default_of<J: JsonRef>(alloc: Global, json: J) -> Result<Option<Value>, SchemaReadError>
    ensures { Gives (λ v. option_map plain v) result (default_from_json (get (codes "default") (J.seen json))) }
{
    match json.get("default") {
        None => Ok(None),
        Some(value) => {
            let default = value.value(alloc)?;
            Ok(Some(default))
        }
    }
}

/// Whether the default, if there is one, is of a kind that is named.
fn is_kept(default: &Option<Value>, kinds: Option<Kinds>) -> bool
    ensures kept { result ≡ is_kept kinds (option_map plain default.now) }
    ensures kind { result ≡ is_kind_of_default kinds default.now }
{
    match default {
        Some(value) => Kinds::allow(kinds, value),
        None => true,
    }
}

/// The attribute of an entry, which has the place `attr` among those of its type.
#[tactic(auto, unfolding(crate::specs::Reading::attr_of))]
fn attr_of<J: JsonRef>(
    alloc: Global,
    version: u32,
    attr: usize,
    name: &str,
    json: J,
) -> Result<AttrSpec, SchemaReadError>
    ensures read { Gives attribute result (attr_from version attr name.now (J.seen json)) }
    ensures name { IfOk result (λ a. a.name ≡ name.now) }
    ensures kind { IfOk result (λ a. is_kind_of_default a.validate a.default ≡ true) }
{
    object(json, Field::Attrs)?;
    let default = default_of(alloc, json)?;
    let validate = validate_of(alloc, version, json)?;
    if !is_kept(&default, validate) {
        return Err(SchemaReadError::BadDefault { attr });
    }
    let name = Text::from_str(alloc, name)?;
    Ok(AttrSpec {
        name,
        default,
        validate,
    })
}

#[tactic(auto, unfolding(crate::specs::Reading::attr_list))]
fn attr_list<J: JsonRef>(
    alloc: Global,
    version: u32,
    members: &[(&str, J)],
) -> Result<AttrSpecs, SchemaReadError>
    requires { InOrder (map (λ m. m.0.now) members.now) }
    ensures { Gives attributes result (attr_list_of version 0 (members_of (map (λ m. (m.0.now, J.seen m.1)) members.now))) }
{
    let mut attrs = Listed::from_vec(Vec::with_capacity(alloc, members.len())?);
    for &(name, value) in members {
        let attr = attr_of(alloc, version, attrs.len(), name, value)?;
        attrs.push(attr)?;
    }
    Ok(AttrSpecs::from_list(attrs))
}

/// The field `attrs` of a type.
#[tactic(auto, unfolding(crate::specs::Reading::attrs_of))]
pub(crate) fn attrs_of<J: JsonRef>(
    alloc: Global,
    version: u32,
    json: J,
) -> Result<AttrSpecs, SchemaReadError>
    ensures { Gives attributes result (attrs_from version (field_of (codes "attrs") (J.seen json))) }
{
    match field(json, "attrs") {
        None => Ok(AttrSpecs::new(alloc)),
        Some(value) => {
            let members = members(alloc, &value, Field::Attrs)?;
            attr_list(alloc, version, members.as_slice())
        }
    }
}
