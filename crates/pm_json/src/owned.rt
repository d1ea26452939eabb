//! Trees as values that own their texts.
ghost use Rattle.std.specs.Prelude.{◌≡◌, option_map, IfOk};
ghost use Rattle.json.specs.Value.{value_view, items_view, members_view};
ghost use Rattle.serde_json.specs.Data.{no_members, number};
ghost use Rattle.serde_json.specs.Read.{of_json, of_items, of_members, number_of};
ghost use Rattle.serde_json.specs.View.{view, items_view as values_view, members_view as map_view};

use crate::number::number_in;
use json::Value as Tree;
use serde_json::{Map, Value as Json, put};
use std::alloc::{AllocError, Global};

/// The value that a tree is, where it is one.
#[cycle(owned)]
pub(crate) fn owned(alloc: Global, tree: &Tree<'_>) -> Result<Option<Json>, AllocError>
    ensures { IfOk result (λ o. option_map view o ≡ of_json (value_view tree.now)) }
{
    match tree {
        Tree::Null => Ok(Some(Json::Null)),
        Tree::Bool(truth) => Ok(Some(Json::Bool(*truth))),
        Tree::Number(text) => Ok(number_value(text)),
        Tree::String(text) => Ok(Some(Json::String(String::from_str(alloc, *text)?))),
        Tree::Array(items) => match owned_items(alloc, items)? {
            Some(values) => Ok(Some(Json::Array(values))),
            None => Ok(None),
        },
        Tree::Object(members) => match owned_members(alloc, members)? {
            Some(map) => Ok(Some(Json::Object(map))),
            None => Ok(None),
        },
    }
}

#[cycle(owned)]
fn owned_items(alloc: Global, items: &[Tree<'_>]) -> Result<Option<Vec<Json>>, AllocError>
    ensures { IfOk result (λ o. option_map (λ v. values_view v.items) o ≡ of_items (items_view items.now)) }
{
    let mut values = Vec::new(alloc);
    for item in items {
        match owned(alloc, item)? {
            Some(value) => values.push(value)?,
            None => return Ok(None),
        }
    }
    Ok(Some(values))
}

#[cycle(owned)]
fn owned_members(
    alloc: Global,
    members: &[(&str, Tree<'_>)],
) -> Result<Option<Map<String, Json>>, AllocError>
    ensures { IfOk result (λ o. option_map (λ m. map_view m.entries) o ≡ of_members (members_view members.now) no_members) }
{
    let mut map = Map::new(alloc);
    for member in members {
        match owned(alloc, &member.1)? {
            Some(value) => put(&mut map, alloc, member.0, value)?,
            None => return Ok(None),
        }
    }
    Ok(Some(map))
}

fn number_value(text: &str) -> Option<Json>
    ensures { option_map view result ≡ option_map number (number_of text.now) }
{
    match number_in(text) {
        Some(number) => Some(Json::Number(number)),
        None => None,
    }
}
