//! Whether a tree is a value: whether each of its numbers is in the range of one.
ghost use Rattle.std.specs.Prelude.{◌≡◌, is_some};
ghost use Rattle.json.specs.Value.{value_view, items_view, members_view};
ghost use Rattle.serde_json.specs.Data.{no_members};
ghost use Rattle.serde_json.specs.Read.{of_json, of_items, of_members};

use crate::number::number_in;
use json::Value as Tree;

#[cycle(whole)]
pub(crate) fn is_whole(tree: &Tree<'_>) -> bool
    ensures { result ≡ is_some (of_json (value_view tree.now)) }
{
    match tree {
        Tree::Number(text) => number_in(text).is_some(),
        Tree::Array(items) => are_whole(items),
        Tree::Object(members) => have_whole(members),
        _ => true,
    }
}

#[cycle(whole)]
fn are_whole(items: &[Tree<'_>]) -> bool
    ensures { result ≡ is_some (of_items (items_view items.now)) }
{
    for item in items {
        if !is_whole(item) {
            return false;
        }
    }
    true
}

#[cycle(whole)]
fn have_whole(members: &[(&str, Tree<'_>)]) -> bool
    ensures { result ≡ is_some (of_members (members_view members.now) no_members) }
{
    for member in members {
        if !is_whole(&member.1) {
            return false;
        }
    }
    true
}
