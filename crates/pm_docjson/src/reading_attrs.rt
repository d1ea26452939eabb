//! JSON values as attributes.
ghost use Rattle.std.specs.Prelude.{◌≡◌, ◌++◌, ◌∷◌, [], codes, map, OnOk};
ghost use Rattle.pm_list.specs.Readings.{or_fault};
ghost use Rattle.pm_value.specs.Views.{plain};
ghost use Rattle.pm_value.specs.Reading.{value_of};
ghost use Rattle.pm_json.specs.Members.{members_of};
ghost use Rattle.pm_schema.specs.Attrs.{IsType, attrs_of, pairs_of};
ghost use Rattle.pm_docjson.specs.declared.fault.DocReadError.TheVariants.{Attr};
ghost use Rattle.pm_docjson.specs.Answers.{Gives};
ghost use Rattle.pm_docjson.specs.Fields.{field};
ghost use Rattle.pm_docjson.specs.Values.{values_for};
ghost use Rattle.pm_docjson.specs.Reading.{as_attr, given_in, given_at, attrs_read};

use crate::fault::DocReadError;
use crate::fields::field;
use pm_json::JsonRef;
use pm_schema::{AnyType, AttrError, Attrs, Schema};
use pm_value::{Value, ValueError};
use std::alloc::{AllocError, Global};

/// The attributes of a type, where the field `attrs` of the JSON value gives their values; without the field none is given. `Shape`
/// comes where the field is no object; `Attr` where a value can't be read, is missing without a default, is of no attribute of
/// the type, or of no kind that its attribute names.
#[tactic(auto, unfolding(crate::specs::Reading::attrs_read))]
pub fn read_attrs<J: JsonRef>(
    alloc: Global,
    schema: &Schema,
    kind: AnyType,
    json: J,
) -> Result<Attrs, DocReadError>
    requires { IsType schema.now.spec kind }
    ensures { Gives (λ a. a) result (attrs_read (attrs_of schema.now.spec kind) (field (codes "attrs") (J.seen json))) }
{
    let given = given_at(alloc, json)?;
    values_for(alloc, schema, kind, given)
}

/// The attributes where these values are given.
fn values_for(
    alloc: Global,
    schema: &Schema,
    kind: AnyType,
    given: Vec<(String, Value)>,
) -> Result<Attrs, DocReadError>
    requires { IsType schema.now.spec kind }
    ensures { Gives (λ a. a) result (or_fault Attr (values_for (attrs_of schema.now.spec kind) (pairs_of given.items))) }
{
    match schema.attrs_for(alloc, kind, given) {
        Ok(attrs) => Ok(attrs),
        Err(AttrError::Missing { attr: _ }) => Err(DocReadError::Attr),
        Err(AttrError::Unknown { index: _ }) => Err(DocReadError::Attr),
        Err(AttrError::Kind { attr: _ }) => Err(DocReadError::Attr),
        Err(AttrError::NoMemory) => Err(DocReadError::NoMemory),
    }
}

/// The values that the field `attrs` gives, each under its name.
#[tactic(auto, unfolding(crate::specs::Reading::given_at))]
fn given_at<J: JsonRef>(alloc: Global, json: J) -> Result<Vec<(String, Value)>, DocReadError>
    ensures { Gives (λ v. pairs_of v.items) result (given_at (field (codes "attrs") (J.seen json))) }
{
    match field(json, "attrs") {
        None => Ok(Vec::new(alloc)),
        Some(value) => match value.members(alloc)? {
            Some(members) => given_in(alloc, members.as_slice()),
            None => Err(DocReadError::Shape),
        },
    }
}

#[tactic(auto, using(crate::proofs::Fronts::given), unfolding(crate::specs::Reading::given_in))]
fn given_in<J: JsonRef>(
    alloc: Global,
    members: &[(&str, J)],
) -> Result<Vec<(String, Value)>, DocReadError>
    ensures { Gives (λ v. pairs_of v.items) result (given_in (members_of (map (λ m. (m.0.now, J.seen m.1)) members.now))) }
{
    let mut given = Vec::with_capacity(alloc, members.len())?;
    for &(name, json) in members {
        let value = attr_value(alloc, json)?;
        push_given(alloc, &mut given, name, value)?;
    }
    Ok(given)
}

/// The value of an attribute.
fn attr_value<J: JsonRef>(alloc: Global, json: J) -> Result<Value, DocReadError>
    ensures { Gives plain result (as_attr (value_of (J.seen json))) }
{
    match json.value(alloc) {
        Ok(value) => Ok(value),
        Err(ValueError::NoMemory) => Err(DocReadError::NoMemory),
        Err(_) => Err(DocReadError::Attr),
    }
}

fn push_given(
    alloc: Global,
    given: &mut Vec<(String, Value)>,
    name: &str,
    value: Value,
) -> Result<(), AllocError>
    ensures { OnOk result (pairs_of given.new.items ≡ pairs_of given.old.items ++ (name.now, plain value) ∷ []) }
{
    let name = String::from_str(alloc, name)?;
    given.push((name, value))?;
    Ok(())
}
