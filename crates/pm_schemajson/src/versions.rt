//! The version of a schema, and the kinds of values that an attribute names.
ghost use Rattle.std.specs.Prelude.{◌≡◌, map, codes, IfOk};
ghost use Rattle.std.specs.List.{list_all, slice_split};
ghost use Rattle.pm_schemajson.specs.Answers.{Gives};
ghost use Rattle.pm_schemajson.specs.Fields.{field as field_of};
ghost use Rattle.pm_schemajson.specs.Versions.{version_of as version_from, is_bar, is_kind as kind_of, is_among as among, kinds_in as kinds_from, validate_of as validate_from};

use crate::error::{Field, SchemaReadError};
use crate::fields::field;
use pm_json::JsonRef;
use pm_value::Kinds;
use std::alloc::{AllocError, Global};

/// The field `version`, 1 where it is absent.
pub(crate) fn version_of<J: JsonRef>(json: J) -> Result<u32, SchemaReadError>
    ensures { Gives (λ v. v) result (version_from (field_of (codes "version") (J.seen json))) }
{
    match field(json, "version") {
        None => Ok(1),
        Some(value) => match value.as_u64() {
            Some(1) => Ok(1),
            Some(2) => Ok(2),
            _ => Err(SchemaReadError::Shape {
                field: Field::Version,
            }),
        },
    }
}

/// The pieces of the text between bars.
fn pieces<'a>(alloc: Global, text: &'a [u8]) -> Result<Vec<&'a [u8]>, AllocError>
    ensures { IfOk result (λ v. map (λ x. x.now) v.items ≡ slice_split is_bar text.now) }
{
    text.split(|b| *b == b'|').collect(alloc)
}

/// Whether it is the name of a kind.
fn is_kind(name: &[u8]) -> bool
    ensures { result ≡ kind_of name.now }
{
    name == b"string".as_slice()
        || (name == b"number".as_slice()
            || (name == b"boolean".as_slice() || name == b"null".as_slice()))
}

/// Whether each of them is.
fn are_kinds(names: &[&[u8]]) -> bool
    ensures { result ≡ list_all kind_of (map (λ x. x.now) names.now) }
{
    for name in names {
        if !is_kind(*name) {
            return false;
        }
    }
    true
}

/// Whether the name is one of them.
fn is_among(names: &[&[u8]], name: &[u8]) -> bool
    ensures { result ≡ among (map (λ x. x.now) names.now) name.now }
{
    for other in names {
        if *other == name {
            return true;
        }
    }
    false
}

/// The kinds that the text names with bars between, `None` where a piece is the name of none.
fn kinds_in(alloc: Global, text: &str) -> Result<Option<Kinds>, AllocError>
    ensures { IfOk result (λ k. k ≡ kinds_from text.now) }
{
    let names = pieces(alloc, text.as_bytes())?;
    let names = names.as_slice();
    if !are_kinds(names) {
        return Ok(None);
    }
    Ok(Some(Kinds {
        string: is_among(names, b"string".as_slice()),
        number: is_among(names, b"number".as_slice()),
        boolean: is_among(names, b"boolean".as_slice()),
        null: is_among(names, b"null".as_slice()),
    }))
}

/// The field `validate` of an attribute's entry, at which version 1 does not look.
pub(crate) fn validate_of<J: JsonRef>(
    alloc: Global,
    version: u32,
    json: J,
) -> Result<Option<Kinds>, SchemaReadError>
    ensures { Gives (λ k. k) result (validate_from version (field_of (codes "validate") (J.seen json))) }
{
    if version == 1 {
        return Ok(None);
    }
    let Some(value) = field(json, "validate") else {
        return Ok(None);
    };
    let Some(text) = value.as_str() else {
        return Err(SchemaReadError::Shape {
            field: Field::Validate,
        });
    };
    match kinds_in(alloc, text)? {
        Some(kinds) => Ok(Some(kinds)),
        None => Err(SchemaReadError::Shape {
            field: Field::Validate,
        }),
    }
}
