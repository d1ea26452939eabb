//! The tokens of a content, taken into runs one after another.
ghost use Rattle.std.specs.Prelude.{◌≡◌, ℕ, ◌+◌, ◌<◌, ◌≤◌, ◌^◌, ◌∷◌, [], List, length, OnOk};
ghost use Rattle.pm_tokens.specs.Tokens.{Open};
ghost use Rattle.pm_node.specs.Trees.{node_tokens};
ghost use Rattle.pm_schema.specs.Documents.{documents_of};
ghost use Rattle.pm_apply.specs.Markings.{AreKnown, marked_in, new_marks};
ghost use Rattle.pm_apply.specs.Walks.{Took};

use crate::between::children_in;
use crate::marking::{Reach, Sort, UNIT};
use crate::runs::Runs;
use crate::walk::Walk;
use pm_node::{Body, Fragment, Node};
use std::alloc::{AllocError, Global};

impl Runs {
    /// Takes the tokens of a content, of which those from..to have the marks that the walk gives them. `at` is the position of the
    /// first.
    #[cycle(take)]
    pub fn take_content(
        &mut self,
        alloc: Global,
        walk: &Walk<'_>,
        content: &Fragment,
        at: usize,
        from: usize,
        to: usize,
    ) -> Result<(), AllocError>
        requires order { from ≤ to }
        requires parent { walk.now.parent < length walk.now.schema.now.spec.nodes }
        requires known { AreKnown (length walk.now.schema.now.spec.nodes) content.now }
        requires room { at + length content.now < 2 ^ 33 }
        ensures { OnOk result ((ps : List ℕ) → Took (documents_of walk.now.schema.now.spec) at content.now
            (marked_in (new_marks (documents_of walk.now.schema.now.spec) walk.now.marking.now Reach.Inline)
            (walk.now.parent ∷ ps) from to content.now) self.old self.new) }
    {
        let _ = content.size();
        let children = content.children();
        let touched = children_in(&children, from, to);
        self.pass(alloc, at, touched.before)?;
        let mut place = at + touched.before;
        let mut start = from - touched.before;
        let mut end = to - touched.before;
        for i in touched.first..touched.end {
            let child = children.get(i);
            let size = child.size();
            self.take_child(alloc, walk, child, place, start, end)?;
            place += size;
            start = start.saturating_sub(size);
            end = end.saturating_sub(size);
        }
        let past = at + children.size();
        self.pass(alloc, place, past - place)
    }

    /// Takes the tokens of a child.
    #[cycle(take)]
    fn take_child(
        &mut self,
        alloc: Global,
        walk: &Walk<'_>,
        node: &Node,
        at: usize,
        from: usize,
        to: usize,
    ) -> Result<(), AllocError>
        requires order { from ≤ to }
        requires parent { walk.now.parent < length walk.now.schema.now.spec.nodes }
        requires known { AreKnown (length walk.now.schema.now.spec.nodes) (node_tokens node.now) }
        requires room { at + length (node_tokens node.now) < 2 ^ 33 }
        ensures { OnOk result ((ps : List ℕ) → Took (documents_of walk.now.schema.now.spec) at (node_tokens node.now)
            (marked_in (new_marks (documents_of walk.now.schema.now.spec) walk.now.marking.now Reach.Inline)
            (walk.now.parent ∷ ps) from to (node_tokens node.now)) self.old self.new) }
    {
        let size = node.size();
        if to <= from {
            return self.pass(alloc, at, size);
        }
        if size <= from {
            return self.pass(alloc, at, size);
        }
        match &node.body {
            Body::Text(units) => {
                let len = units.len();
                let end = len.min(to);
                let new = walk.made(alloc, Reach::Inline, UNIT, &node.marks)?;
                self.pass(alloc, at, from)?;
                self.token(alloc, at + from, true, &node.marks, &new)?;
                self.pass(alloc, at + end, len - end)
            }
            Body::Leaf => {
                let sort = Sort::of(walk.schema, node.kind, true);
                let new = walk.made(alloc, Reach::Inline, sort, &node.marks)?;
                self.token(alloc, at, sort.takes, &node.marks, &new)
            }
            Body::Children(inner) => {
                let end = at + 1 + inner.size();
                let start = from.saturating_sub(1);
                self.take_open(alloc, walk, node, at, from)?;
                let inside = Walk {
                    parent: node.kind,
                    ..*walk
                };
                self.take_content(alloc, &inside, inner, at + 1, start, to - 1)?;
                self.pass(alloc, end, 1)
            }
        }
    }

    /// Takes the open of a node, which is changed where it stands in from..
    fn take_open(
        &mut self,
        alloc: Global,
        walk: &Walk<'_>,
        node: &Node,
        at: usize,
        from: usize,
    ) -> Result<(), AllocError>
        requires parent { walk.now.parent < length walk.now.schema.now.spec.nodes }
        requires known { node.now.kind < length walk.now.schema.now.spec.nodes }
        ensures { OnOk result ((ps : List ℕ) → Took (documents_of walk.now.schema.now.spec) at
            (Open node.now.kind node.now.attrs node.now.marks ∷ [])
            (marked_in (new_marks (documents_of walk.now.schema.now.spec) walk.now.marking.now Reach.Inline)
            (walk.now.parent ∷ ps) from (from + 1) (Open node.now.kind node.now.attrs node.now.marks ∷ [])) self.old self.new) }
    {
        if from > 0 {
            return self.pass(alloc, at, 1);
        }
        let sort = Sort::of(walk.schema, node.kind, false);
        let new = walk.made(alloc, Reach::Inline, sort, &node.marks)?;
        self.token(alloc, at, sort.takes, &node.marks, &new)
    }
}
