//! Whether a marking gives the marks of a range back, after another one.
ghost use Rattle.std.specs.Prelude.{◌≡◌, ℕ, ◌<◌, ◌≤◌, ◌∷◌, true, List, length, IfOk};
ghost use Rattle.pm_attrs.specs.Attrs.{same_attrs};
ghost use Rattle.pm_marks.specs.Sets.{same_marks};
ghost use Rattle.pm_tokens.specs.Tokens.{Open};
ghost use Rattle.pm_meaning.specs.Inverses.{same_tokens};
ghost use Rattle.pm_node.specs.Trees.{node_tokens};
ghost use Rattle.pm_schema.specs.Documents.{documents_of};
ghost use Rattle.pm_apply.specs.Markings.{AreKnown, sort_marks};
ghost use Rattle.pm_apply.specs.Backs.{marked_twice, twice};

use crate::between::children_in;
use crate::marking::{Reach, Sort, UNIT};
use crate::walk::Walk;
use pm_attrs::Attrs;
use pm_marks::MarkSet;
use pm_node::{Body, Fragment, Node};
use pm_step::Marking;
use std::alloc::{AllocError, Global};

/// Whether the marking `back` gives the tokens from..to their marks back, after the marking.
#[cycle(restores)]
pub fn restores(
    alloc: Global,
    walk: &Walk<'_>,
    back: &Marking,
    content: &Fragment,
    from: usize,
    to: usize,
) -> Result<bool, AllocError>
    requires order { from ≤ to }
    requires parent { walk.now.parent < length walk.now.schema.now.spec.nodes }
    requires known { AreKnown (length walk.now.schema.now.spec.nodes) content.now }
    ensures { IfOk result (λ b. (ps : List ℕ)
        → b ≡ same_tokens (marked_twice (documents_of walk.now.schema.now.spec) walk.now.marking.now back.now
        (walk.now.parent ∷ ps) from to content.now) content.now) }
{
    let _ = content.size();
    let children = content.children();
    let touched = children_in(&children, from, to);
    let mut start = from - touched.before;
    let mut end = to - touched.before;
    for i in touched.first..touched.end {
        let child = children.get(i);
        let size = child.size();
        let kept = restores_in(alloc, walk, back, child, start, end)?;
        if !kept {
            return Ok(false);
        }
        start = start.saturating_sub(size);
        end = end.saturating_sub(size);
    }
    Ok(true)
}

#[cycle(restores)]
fn restores_in(
    alloc: Global,
    walk: &Walk<'_>,
    back: &Marking,
    node: &Node,
    from: usize,
    to: usize,
) -> Result<bool, AllocError>
    requires order { from ≤ to }
    requires parent { walk.now.parent < length walk.now.schema.now.spec.nodes }
    requires known { AreKnown (length walk.now.schema.now.spec.nodes) (node_tokens node.now) }
    ensures { IfOk result (λ b. (ps : List ℕ)
        → b ≡ same_tokens (marked_twice (documents_of walk.now.schema.now.spec) walk.now.marking.now back.now
        (walk.now.parent ∷ ps) from to (node_tokens node.now)) (node_tokens node.now)) }
{
    let size = node.size();
    if to <= from {
        return Ok(true);
    }
    if size <= from {
        return Ok(true);
    }
    match &node.body {
        Body::Text(_) => restores_marks(alloc, walk, back, UNIT, &node.marks),
        Body::Leaf => {
            let sort = Sort::of(walk.schema, node.kind, true);
            restores_marks(alloc, walk, back, sort, &node.marks)
        }
        Body::Children(inner) => {
            let _ = inner.size();
            let kept = restores_open(alloc, walk, back, node, from)?;
            if !kept {
                return Ok(false);
            }
            let start = from.saturating_sub(1);
            let inside = Walk {
                parent: node.kind,
                ..*walk
            };
            restores(alloc, &inside, back, inner, start, to - 1)
        }
    }
}

/// Whether the open of a node has its marks back. It is changed where it stands in from..
fn restores_open(
    alloc: Global,
    walk: &Walk<'_>,
    back: &Marking,
    node: &Node,
    from: usize,
) -> Result<bool, AllocError>
    requires parent { walk.now.parent < length walk.now.schema.now.spec.nodes }
    requires known { node.now.kind < length walk.now.schema.now.spec.nodes }
    ensures start { from ≡ 0 → IfOk result (λ b. b ≡ same_marks same_attrs
        (twice (documents_of walk.now.schema.now.spec) walk.now.marking.now back.now walk.now.parent
        (Open node.now.kind node.now.attrs node.now.marks) node.now.marks) node.now.marks) }
    ensures inside { 0 < from → IfOk result (λ b. b ≡ true) }
{
    if from == 0 {
        let sort = Sort::of(walk.schema, node.kind, false);
        restores_marks(alloc, walk, back, sort, &node.marks)
    } else {
        Ok(true)
    }
}

/// Whether the marking `back` gives a token of this sort its marks back, after the marking.
fn restores_marks(
    alloc: Global,
    walk: &Walk<'_>,
    back: &Marking,
    sort: Sort,
    old: &MarkSet<Attrs>,
) -> Result<bool, AllocError>
    requires { walk.now.parent < length walk.now.schema.now.spec.nodes }
    ensures { IfOk result (λ b. b ≡ same_marks same_attrs
        (sort_marks (documents_of walk.now.schema.now.spec) back.now Reach.Inline sort walk.now.parent
        (sort_marks (documents_of walk.now.schema.now.spec) walk.now.marking.now Reach.Inline sort walk.now.parent old.now)) old.now) }
{
    let new = walk.made(alloc, Reach::Inline, sort, old)?;
    let behind = Walk {
        marking: back,
        ..*walk
    };
    let restored = behind.made(alloc, Reach::Inline, sort, &new)?;
    Ok(restored.same(old))
}
