//! The names of a schema's node types and their groups.
ghost use Rattle.std.specs.Prelude.{◌≡◌, IfOk, map, option_map};
ghost use Rattle.std.specs.List.{list_any, position_from};
ghost use Rattle.std.specs.Str.{bytes_eq};
ghost use Rattle.pm_auto.specs.Tree.{tree, one};
ghost use Rattle.pm_expr.specs.Tables.{named, texts};
ghost use Rattle.pm_expr.specs.Names.{stands_for, members};

use crate::join::any_of;
use pm_auto::{Expr, TypeId};
use std::alloc::{AllocError, Global};
use std::marker::Model;

/// A node type: its name, and the groups that it is in.
#[derive(Drop, Debug)]
pub struct NameGroups {
    pub name: String,
    pub groups: Vec<String>,
}

/// The node types of a schema in order. A contract sees them as a list.
#[derive(Drop, Debug)]
pub struct Names {
    types: Vec<NameGroups>,
}

impl Model for Names {
    ghost use Rattle.std.specs.Prelude.{List, map};
    ghost use Rattle.pm_expr.specs.Names.{Named};
    ghost use Rattle.pm_expr.specs.Tables.{named};

    ghost Value = { List Named };

    ghost view = { λ n. map named n.types.items };
}

impl Names {
    /// The names of these types, in memory of its own.
    pub fn new(alloc: Global, types: &[NameGroups]) -> Result<Names, AllocError>
        ensures { IfOk result (λ n. n ≡ map named types.now) }
    {
        Ok(Names {
            types: copy_types(alloc, types)?,
        })
    }

    /// What a word stands for: the first type of that name, or else the choice of all types of that group in schema
    /// order, of one type alone that type; none where there is no such type.
    pub(crate) fn expr(&self, alloc: Global, word: &[u8]) -> Result<Option<Expr>, AllocError>
        ensures { IfOk result (λ e. option_map tree e ≡ stands_for self.now word.now) }
    {
        find(alloc, self.types.as_slice(), word)
    }
}

fn copy_types(alloc: Global, types: &[NameGroups]) -> Result<Vec<NameGroups>, AllocError>
    ensures { IfOk result (λ v. map named v.items ≡ map named types.now) }
{
    let mut copies = Vec::new(alloc);
    for kind in types {
        copies.push(copy_type(alloc, kind)?)?;
    }
    Ok(copies)
}

fn copy_type(alloc: Global, kind: &NameGroups) -> Result<NameGroups, AllocError>
    ensures { IfOk result (λ c. named c ≡ named kind.now) }
{
    let name = String::from_str(alloc, kind.name.as_str())?;
    let groups = copy_texts(alloc, kind.groups.as_slice())?;
    Ok(NameGroups { name, groups })
}

fn copy_texts(alloc: Global, items: &[String]) -> Result<Vec<String>, AllocError>
    ensures { IfOk result (λ v. texts v.items ≡ texts items.now) }
{
    let mut copies = Vec::new(alloc);
    for item in items {
        copies.push(String::from_str(alloc, item.as_str())?)?;
    }
    Ok(copies)
}

fn find(alloc: Global, types: &[NameGroups], word: &[u8]) -> Result<Option<Expr>, AllocError>
    ensures { IfOk result (λ e. option_map tree e ≡ stands_for (map named types.now) word.now) }
{
    if let Some(kind) = type_of(types, word) {
        return Ok(Some(Expr::One(kind)));
    }
    let group = members_of(alloc, types, word)?;
    if group.is_empty() {
        Ok(None)
    } else {
        Ok(Some(any_of(group)))
    }
}

/// The first type of the name.
fn type_of(types: &[NameGroups], word: &[u8]) -> Option<TypeId>
    ensures { result ≡ position_from (λ n. bytes_eq word.now n.name) 0 (map named types.now) }
{
    for (kind, entry) in types.iter().enumerate() {
        if word == entry.name.as_bytes() {
            return Some(kind);
        }
    }
    None
}

/// The types of the group, each as an expression.
fn members_of(alloc: Global, types: &[NameGroups], word: &[u8]) -> Result<Vec<Expr>, AllocError>
    ensures { IfOk result (λ v. map tree v.items ≡ map one (members 0 (map named types.now) word.now)) }
{
    let mut group = Vec::new(alloc);
    for (kind, entry) in types.iter().enumerate() {
        if has_text(entry.groups.as_slice(), word) {
            group.push(Expr::One(kind))?;
        }
    }
    Ok(group)
}

fn has_text(items: &[String], word: &[u8]) -> bool
    ensures { result ≡ list_any (bytes_eq word.now) (texts items.now) }
{
    for item in items {
        if word == item.as_bytes() {
            return true;
        }
    }
    false
}
