//! Trees of `json`.
ghost use Rattle.std.specs.Prelude.{◌≡◌, true, is_some, Some, None, MatchOption, IfOk, map};
ghost use Rattle.json.specs.Value.{value_view, members_view};
ghost use Rattle.serde_json.specs.Data.{no_members};
ghost use Rattle.serde_json.specs.Read.{of_json, of_members};
ghost use Rattle.pm_json.specs.Members.{members_of, data_of};

use crate::any::JsonRef;
use crate::number::number_in;
use crate::owned::owned;
use crate::whole::is_whole;
use json::Value as Tree;
use pm_value::{Value, ValueError};
use std::alloc::{AllocError, Global};
use std::collections::BTreeMap;

/// A tree that is a value: each of its numbers is in the range of one.
#[derive(Clone, Copy, Drop)]
pub struct TreeRef<'t, 'a> {
    tree: &'t Tree<'a>,
    ghost whole: { is_some (of_json (value_view tree.now)) ≡ true },
}

impl<'t, 'a> TreeRef<'t, 'a> {
    /// The tree, where each number in it is in the range of one.
    pub fn new(tree: &'t Tree<'a>) -> Option<TreeRef<'t, 'a>>
        ensures { MatchOption result (of_json (value_view tree.now) ≡ None) (λ r. of_json (value_view tree.now) ≡ Some (data_of (value_view r.tree.now))) }
    {
        if is_whole(tree) {
            Some(TreeRef { tree })
        } else {
            None
        }
    }
}

impl<'t, 'a> JsonRef for TreeRef<'t, 'a> {
    ghost use Rattle.json.specs.Value.{value_view};
    ghost use Rattle.pm_json.specs.Members.{data_of};

    ghost seen = { λ r. data_of (value_view r.tree.now) };

    fn get(self, key: &str) -> Option<TreeRef<'t, 'a>> {
        match self.tree.get(key) {
            Some(tree) => Some(TreeRef { tree }),
            None => None,
        }
    }

    fn is_null(self) -> bool {
        self.tree.is_null()
    }

    fn is_object(self) -> bool {
        matches!(self.tree, Tree::Object(_))
    }

    fn as_bool(self) -> Option<bool> {
        self.tree.as_bool()
    }

    fn as_u64(self) -> Option<u64> {
        match self.tree {
            Tree::Number(text) => number_in(text)?.as_u64(),
            _ => None,
        }
    }

    fn as_str(&self) -> Option<&str> {
        self.tree.as_str()
    }

    fn items(self, alloc: Global) -> Result<Option<Vec<TreeRef<'t, 'a>>>, AllocError> {
        let Tree::Array(items) = self.tree else {
            return Ok(None);
        };
        let mut refs = Vec::with_capacity(alloc, items.len())?;
        for tree in items {
            refs.push(TreeRef { tree })?;
        }
        Ok(Some(refs))
    }

    fn members(&self, alloc: Global) -> Result<Option<Vec<(&str, TreeRef<'t, 'a>)>>, AllocError> {
        let Tree::Object(members) = self.tree else {
            return Ok(None);
        };
        let map = ordered(alloc, members)?;
        let mut refs = Vec::with_capacity(alloc, map.len())?;
        for (key, value) in map.iter() {
            refs.push((*key, *value))?;
        }
        Ok(Some(refs))
    }

    fn value(self, alloc: Global) -> Result<Value, ValueError> {
        match owned(alloc, self.tree)? {
            Some(json) => Value::from_json(alloc, &json),
            None => unreachable!(),
        }
    }
}

/// The members in byte order of their keys. Of a key that comes twice the last value counts.
fn ordered<'t, 'a>(
    alloc: Global,
    members: &'t [(&'a str, Tree<'a>)],
) -> Result<BTreeMap<&'t str, TreeRef<'t, 'a>>, AllocError>
    requires { is_some (of_members (members_view members.now) no_members) ≡ true }
    ensures { IfOk result (λ m. of_members (members_view members.now) no_members ≡ Some (members_of (map (λ e. (e.0.now, data_of (value_view e.1.tree.now))) m.entries))) }
{
    let mut map = BTreeMap::new(alloc);
    for member in members {
        drop(map.insert(member.0, TreeRef { tree: &member.1 })?);
    }
    Ok(map)
}
