//! The attributes of a node or a mark, from given names and values.
ghost use Rattle.std.specs.Prelude.{◌≡◌, ◌<◌, ℕ, not, map, option_map, Some, length, IfOk, IfErr, OnOk, MatchOption};
ghost use Rattle.std.specs.List.{list_any};
ghost use Rattle.std.specs.Str.{bytes_eq};
ghost use Rattle.pm_value.specs.Views.{plain, plains};
ghost use Rattle.pm_schema.specs.Attrs.{IsType, attrs_of, no_attr, no_pair, pairs_of, given_for, value_for, is_missing, is_unknown, is_other_kind, IsFirstAt, NonePasses, AreValues, IsAttrFault};

use crate::error::AttrError;
use crate::kinds::AnyType;
use crate::schema::Schema;
use crate::spec::AttrSpec;
use pm_attrs::Attrs;
use pm_value::{Kinds, Value};
use std::alloc::{AllocError, Global};

/// The value that is given for the name, the first where there are several.
fn find<'a>(given: &'a [(String, Value)], name: &str) -> Option<&'a Value>
    ensures { option_map (λ v. plain v.now) result ≡ given_for name.now (pairs_of given.now) }
{
    for pair in given {
        if name == pair.0.as_str() {
            return Some(&pair.1);
        }
    }
    None
}

/// The value of the attribute: the one that is given, or else its default.
fn value_of(
    alloc: Global,
    attr: &AttrSpec,
    given: &[(String, Value)],
) -> Result<Option<Value>, AllocError>
    ensures { IfOk result (λ o. option_map plain o ≡ value_for (pairs_of given.now) attr.now) }
{
    match find(given, attr.name.as_str()) {
        Some(value) => Ok(Some(value.copy(alloc)?)),
        None => default_of(alloc, attr),
    }
}

fn default_of(alloc: Global, attr: &AttrSpec) -> Result<Option<Value>, AllocError>
    ensures { IfOk result (λ o. option_map plain o ≡ option_map plain attr.now.default) }
{
    match &attr.default {
        Some(value) => Ok(Some(value.copy(alloc)?)),
        None => Ok(None),
    }
}

/// The value of each attribute. `Missing` with the first that has none.
fn values_of(
    alloc: Global,
    attrs: &[AttrSpec],
    given: &[(String, Value)],
) -> Result<Vec<Value>, AttrError>
    ensures values { IfOk result (λ v. AreValues attrs.now (pairs_of given.now) (plains v.items)) }
    ensures complete { OnOk result (NonePasses (is_missing (pairs_of given.now)) attrs.now no_attr) }
    ensures refused { IfErr result (IsAttrFault attrs.now (pairs_of given.now)) }
{
    let mut values = Vec::new(alloc);
    for (attr, spec) in attrs.iter().enumerate() {
        match value_of(alloc, spec, given)? {
            Some(value) => values.push(value)?,
            None => return Err(AttrError::Missing { attr }),
        }
    }
    Ok(values)
}

/// Whether an attribute has the name.
fn declares(attrs: &[AttrSpec], name: &str) -> bool
    ensures { result ≡ list_any (λ a. bytes_eq name.now a.name) attrs.now }
{
    attrs.iter().any(|a| name == a.name.as_str())
}

/// The first given name that no attribute has.
fn first_unknown(attrs: &[AttrSpec], given: &[(String, Value)]) -> Option<usize>
    ensures { MatchOption result (NonePasses (is_unknown attrs.now) (pairs_of given.now) no_pair) (IsFirstAt (is_unknown attrs.now) (pairs_of given.now) no_pair) }
{
    for (index, pair) in given.iter().enumerate() {
        if !declares(attrs, pair.0.as_str()) {
            return Some(index);
        }
    }
    None
}

/// Whether no value is given for the attribute, or one of a kind that it names.
fn takes_given(attr: &AttrSpec, given: &[(String, Value)]) -> bool
    ensures { result ≡ not (is_other_kind (pairs_of given.now) attr.now) }
{
    match find(given, attr.name.as_str()) {
        Some(value) => Kinds::allow(attr.validate, value),
        None => true,
    }
}

/// The first attribute for which a value of no kind that it names is given.
fn first_of_other_kind(attrs: &[AttrSpec], given: &[(String, Value)]) -> Option<usize>
    ensures { MatchOption result (NonePasses (is_other_kind (pairs_of given.now)) attrs.now no_attr) (IsFirstAt (is_other_kind (pairs_of given.now)) attrs.now no_attr) }
{
    for (index, attr) in attrs.iter().enumerate() {
        if !takes_given(attr, given) {
            return Some(index);
        }
    }
    None
}

/// The values of the attributes, or the first fault of what is given.
fn checked_values(
    alloc: Global,
    attrs: &[AttrSpec],
    given: &[(String, Value)],
) -> Result<Vec<Value>, AttrError>
    ensures values { IfOk result (λ v. AreValues attrs.now (pairs_of given.now) (plains v.items)) }
    ensures complete { OnOk result (NonePasses (is_missing (pairs_of given.now)) attrs.now no_attr) }
    ensures known { OnOk result (NonePasses (is_unknown attrs.now) (pairs_of given.now) no_pair) }
    ensures kinds { OnOk result (NonePasses (is_other_kind (pairs_of given.now)) attrs.now no_attr) }
    ensures refused { IfErr result (IsAttrFault attrs.now (pairs_of given.now)) }
{
    let values = values_of(alloc, attrs, given)?;
    if let Some(index) = first_unknown(attrs, given) {
        return Err(AttrError::Unknown { index });
    }
    match first_of_other_kind(attrs, given) {
        Some(attr) => Err(AttrError::Kind { attr }),
        None => Ok(values),
    }
}

impl Schema {
    /// The attributes of a node or a mark of the type: for each attribute that it declares the value that is given for its
    /// name, the first where there are several, or else its default. `Missing` with the first attribute that has neither;
    /// else `Unknown` with the first given name that no attribute has; else `Kind` with the first attribute for which a value
    /// of no kind that it names is given. A default is of such a kind in any case.
    pub fn attrs_for(
        &self,
        alloc: Global,
        kind: AnyType,
        given: Vec<(String, Value)>,
    ) -> Result<Attrs, AttrError>
        requires { IsType self.now.spec kind }
        ensures values { IfOk result (AreValues (attrs_of self.now.spec kind) (pairs_of given.items)) }
        ensures complete { OnOk result (NonePasses (is_missing (pairs_of given.items)) (attrs_of self.now.spec kind) no_attr) }
        ensures known { OnOk result (NonePasses (is_unknown (attrs_of self.now.spec kind)) (pairs_of given.items) no_pair) }
        ensures kinds { OnOk result (NonePasses (is_other_kind (pairs_of given.items)) (attrs_of self.now.spec kind) no_attr) }
        ensures refused { IfErr result (IsAttrFault (attrs_of self.now.spec kind) (pairs_of given.items)) }
    {
        let attrs = self.attrs(kind);
        let values = checked_values(alloc, attrs, given.as_slice())?;
        Ok(Attrs::new(values))
    }
}
