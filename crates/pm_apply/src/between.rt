//! The children of a content that have a token in a range.
ghost use Rattle.std.specs.Prelude.{◌≤◌};
ghost use Rattle.pm_apply.specs.Between.{IsBetween};

use pm_node::Children;

/// The children first..end, which have `before` tokens before them.
#[derive(Clone, Copy)]
pub struct Between {
    pub first: usize,
    pub end: usize,
    pub before: usize,
}

/// The children that have a token in from..to, and those that such a range of no tokens stands in. It takes no memory.
pub fn children_in(children: &Children<'_>, from: usize, to: usize) -> Between
    requires { from ≤ to }
    ensures { IsBetween children.now from to result.first result.end result.before }
{
    let size = children.size();
    let start = from.min(size);
    let first = children.find(start);
    let last = children.find(to.min(size));
    let _ = children.len();
    let end = if last.rest > 0 {
        last.index + 1
    } else {
        last.index
    };
    Between {
        first: first.index,
        end,
        before: start - first.rest,
    }
}
