//! The nodes that stand first, and last, within one another.
ghost use Rattle.std.specs.Prelude.{◌≡◌};
ghost use Rattle.pm_slice.specs.Sides.{opens_first, closes_last};

use pm_node::{Body, Fragment};

/// Whether `depth` nodes that are no leaf and no text stand first within one another. It takes no memory.
pub fn starts_open(content: &Fragment, depth: usize) -> bool
    ensures { result ≡ opens_first depth content.now }
{
    if depth == 0 {
        return true;
    }
    let children = content.children();
    if children.len() == 0 {
        return false;
    }
    match &children.get(0).body {
        Body::Children(inner) => starts_open(inner, depth - 1),
        _ => false,
    }
}

/// Whether `depth` nodes that are no leaf and no text stand last within one another. It takes no memory.
pub fn ends_open(content: &Fragment, depth: usize) -> bool
    ensures { result ≡ closes_last depth content.now }
{
    if depth == 0 {
        return true;
    }
    let children = content.children();
    let len = children.len();
    if len == 0 {
        return false;
    }
    match &children.get(len - 1).body {
        Body::Children(inner) => ends_open(inner, depth - 1),
        _ => false,
    }
}
