//! Parts of a content, fed to a builder.
ghost use Rattle.std.specs.Prelude.{◌≡◌, ℕ, ◌+◌, ◌-◌, ◌<◌, ◌≤◌, ◌^◌, [], ◌∷◌, ◌++◌, OnOk, length, drop};
ghost use Rattle.std.specs.Arc.{arc_value};
ghost use Rattle.pm_tokens.specs.Tokens.{Open};
ghost use Rattle.pm_build.specs.Fed.{Fed};
ghost use Rattle.pm_tokens.specs.Scan.{part, owned, plain, Opening, Closing};
ghost use Rattle.pm_node.specs.Trees.{node_tokens, list_tokens, body_tokens, IsNormal, EachWhole};
ghost use Rattle.pm_tokens.specs.Schemas.{compatible};
ghost use Rattle.pm_tokens.specs.Kids.{text_tokens};
ghost use Rattle.pm_schema.specs.Documents.{documents_of};

use crate::builder::Builder;
use crate::refused::Refused;
use pm_auto::TypeId;
use pm_marks::Same;
use pm_node::{Body, Children, Fragment, Node, Units};
use pm_schema::Schema;
use std::alloc::{AllocError, Global};
use std::sync::Arc;

/// Whether nodes of the two types may be joined, also of types that the schema does not have.
pub(crate) fn are_compatible(schema: &Schema, a: TypeId, b: TypeId) -> bool
    ensures { result ≡ compatible (documents_of schema.now.spec) a b }
{
    if a == b {
        return true;
    }
    let count = schema.node_count();
    if a >= count || b >= count {
        return false;
    }
    schema.compatible(a, b)
}

impl Builder {
    /// Closes the innermost open node by the close of a node of the type `owner`.
    fn close_as(&mut self, alloc: Global, schema: &Schema, owner: TypeId) -> Result<(), Refused>
        requires { length self.old + 1 < 2 ^ 32 }
        ensures { Fed (compatible (documents_of schema.now.spec)) self.old (Closing owner ∷ []) result self.new }
    {
        let Some(kind) = self.top() else {
            return Err(Refused::Join);
        };
        if !are_compatible(schema, kind, owner) {
            return Err(Refused::Join);
        }
        self.close(alloc)?;
        Ok(())
    }

    /// Appends the tokens from..to of a fragment.
    #[cycle(feed)]
    pub fn feed(
        &mut self,
        alloc: Global,
        schema: &Schema,
        source: &Fragment,
        from: usize,
        to: usize,
    ) -> Result<(), Refused>
        requires { length self.old + (to - from) < 2 ^ 32 }
        ensures { Fed (compatible (documents_of schema.now.spec)) self.old (part from to (owned [] source.now)) result self.new }
    {
        let end = source.size().min(to);
        if end <= from {
            return Ok(());
        }
        let children = source.children();
        self.feed_between(alloc, schema, &children, from, end)
    }

    /// Appends the tokens from..to of nodes. Those that are wholly there are shared in one run.
    #[cycle(feed)]
    fn feed_between(
        &mut self,
        alloc: Global,
        schema: &Schema,
        nodes: &Children<'_>,
        from: usize,
        to: usize,
    ) -> Result<(), Refused>
        requires some { from < to }
        requires within { to ≤ length (list_tokens nodes.now) }
        requires normal { IsNormal nodes.now }
        requires each { EachWhole nodes.now }
        requires room { length self.old + (to - from) < 2 ^ 32 }
        ensures { Fed (compatible (documents_of schema.now.spec)) self.old (part from to (owned [] (list_tokens nodes.now))) result self.new }
    {
        let first = nodes.find(from);
        let last = nodes.find(to);
        if last.index <= first.index {
            let child = nodes.get(first.index);
            return self.feed_child(alloc, schema, child, first.rest, last.rest);
        }
        self.feed_rest(alloc, schema, nodes, first.index, first.rest, last.index)?;
        if last.rest == 0 {
            return Ok(());
        }
        self.feed_child(alloc, schema, nodes.get(last.index), 0, last.rest)
    }

    /// Appends the nodes index..end without the first `skip` tokens of the first of them.
    #[cycle(feed)]
    fn feed_rest(
        &mut self,
        alloc: Global,
        schema: &Schema,
        nodes: &Children<'_>,
        index: usize,
        skip: usize,
        end: usize,
    ) -> Result<(), Refused>
        requires order { index < end }
        requires within { end ≤ length nodes.now }
        requires normal { IsNormal nodes.now }
        requires each { EachWhole nodes.now }
        requires inside { skip ≤ length (list_tokens (part index (index + 1) nodes.now)) }
        requires room { length self.old + (length (list_tokens (part index end nodes.now)) - skip) < 2 ^ 32 }
        ensures { Fed (compatible (documents_of schema.now.spec)) self.old (drop skip (owned [] (list_tokens (part index end nodes.now)))) result self.new }
    {
        if skip == 0 {
            self.append(alloc, nodes, index, end)?;
            return Ok(());
        }
        let child = nodes.get(index);
        self.feed_child(alloc, schema, child, skip, child.size())?;
        self.append(alloc, nodes, index + 1, end)?;
        Ok(())
    }

    /// Appends the tokens from..to of a node, which is shared where it is whole.
    #[cycle(feed)]
    fn feed_child(
        &mut self,
        alloc: Global,
        schema: &Schema,
        node: &Arc<Node, Global>,
        from: usize,
        to: usize,
    ) -> Result<(), Refused>
        requires { length self.old + (to - from) < 2 ^ 32 }
        ensures { Fed (compatible (documents_of schema.now.spec)) self.old (part from to (owned [] (node_tokens (arc_value node.now)))) result self.new }
    {
        let size = node.size();
        if to <= from || size <= from {
            return Ok(());
        }
        if from == 0 && size <= to {
            let node = Arc::try_clone(node)?;
            self.push(alloc, node)?;
            return Ok(());
        }
        self.feed_part(alloc, schema, node, from, to)
    }

    /// Appends the tokens from..to of a node.
    #[cycle(feed)]
    fn feed_part(
        &mut self,
        alloc: Global,
        schema: &Schema,
        node: &Node,
        from: usize,
        to: usize,
    ) -> Result<(), Refused>
        requires some { from < to }
        requires room { length self.old + (to - from) < 2 ^ 32 }
        ensures { Fed (compatible (documents_of schema.now.spec)) self.old (part from to (owned [] (node_tokens node.now))) result self.new }
    {
        match &node.body {
            Body::Text(units) => {
                self.feed_text(alloc, node, units, from, to)?;
                Ok(())
            }
            Body::Leaf => {
                if from == 0 {
                    self.push_copy(alloc, node, Body::Leaf)?;
                }
                Ok(())
            }
            Body::Children(content) => {
                let size = content.size();
                let start = from.saturating_sub(1);
                self.feed_open(alloc, node, from)?;
                self.feed(alloc, schema, content, start, to - 1)?;
                self.feed_close(
                    alloc,
                    schema,
                    node.kind,
                    start.saturating_sub(size),
                    (to - 1).saturating_sub(size),
                )
            }
        }
    }

    /// Appends the units from..to of a text.
    fn feed_text(
        &mut self,
        alloc: Global,
        head: &Node,
        units: &Units,
        from: usize,
        to: usize,
    ) -> Result<(), AllocError>
        requires some { from < to }
        requires room { length self.old + (to - from) < 2 ^ 32 }
        ensures { OnOk result (self.new ≡ self.old ++ text_tokens head.now.marks (part from to units.now)) }
    {
        let end = units.len().min(to);
        let units = units.cut(alloc, end.min(from), end)?;
        self.push_copy(alloc, head, Body::Text(units))
    }

    /// Appends the open of a node, where it stands in from..
    fn feed_open(&mut self, alloc: Global, head: &Node, from: usize) -> Result<(), AllocError>
        ensures { OnOk result (self.new ≡ self.old ++ plain (part from (from + 1) (Opening head.now.kind head.now.attrs head.now.marks ∷ []))) }
    {
        if from == 0 {
            self.open_copy(alloc, head)?;
        }
        Ok(())
    }

    /// Appends the close of a node, where it stands in from..to.
    fn feed_close(
        &mut self,
        alloc: Global,
        schema: &Schema,
        owner: TypeId,
        from: usize,
        to: usize,
    ) -> Result<(), Refused>
        requires { length self.old + (to - from) < 2 ^ 32 }
        ensures { Fed (compatible (documents_of schema.now.spec)) self.old (part from to (Closing owner ∷ [])) result self.new }
    {
        if from == 0 && 0 < to {
            self.close_as(alloc, schema, owner)?;
        }
        Ok(())
    }

    /// Appends a node with the head of another one.
    fn push_copy(&mut self, alloc: Global, head: &Node, body: Body) -> Result<(), AllocError>
        requires { length self.old + length (body_tokens head.now.kind head.now.attrs head.now.marks body) < 2 ^ 32 }
        ensures { OnOk result (self.new ≡ self.old ++ body_tokens head.now.kind head.now.attrs head.now.marks body) }
    {
        let node = Arc::new(
            alloc,
            Node {
                kind: head.kind,
                attrs: head.attrs.copy(alloc)?,
                marks: head.marks.copy(alloc)?,
                body,
            },
        )?;
        self.push(alloc, node)
    }

    /// Opens a node with the head of another one.
    pub fn open_copy(&mut self, alloc: Global, head: &Node) -> Result<(), AllocError>
        ensures { OnOk result (self.new ≡ self.old ++ Open head.now.kind head.now.attrs head.now.marks ∷ []) }
    {
        let attrs = head.attrs.copy(alloc)?;
        let marks = head.marks.copy(alloc)?;
        self.open(alloc, head.kind, attrs, marks)
    }
}
