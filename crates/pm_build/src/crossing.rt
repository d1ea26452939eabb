//! Parts of a content, passed over by the types of the open nodes alone.
ghost use Rattle.std.specs.Prelude.{◌≡◌, ◌+◌, ◌<◌, ◌≤◌, [], ◌∷◌, OnOk, length};
ghost use Rattle.pm_tokens.specs.Scan.{part, owned, plain, unclosed, Opening, Closing};
ghost use Rattle.pm_tokens.specs.Schemas.{compatible};
ghost use Rattle.pm_schema.specs.Documents.{documents_of};
ghost use Rattle.pm_node.specs.Trees.{node_tokens, list_tokens, IsNormal, EachWhole};
ghost use Rattle.pm_build.specs.Fed.{Crosses};

use crate::feed::are_compatible;
use crate::refused::Refused;
use pm_auto::TypeId;
use pm_node::{Body, Children, Fragment, Node};
use pm_schema::Schema;
use std::alloc::{AllocError, Global};
use std::marker::Model;

/// The types of the nodes that are open. A contract sees them, the innermost first. It tells whether parts join where a
/// builder has no room for their tokens.
#[derive(Drop)]
pub struct OpenTypes {
    kinds: Vec<TypeId>,
}

impl Model for OpenTypes {
    ghost use Rattle.std.specs.Prelude.{List, ℕ, reverse};

    ghost Value = { List ℕ };

    ghost view = { λ o. reverse o.kinds.items };
}

impl OpenTypes {
    /// No node is open. It takes no memory.
    pub fn new(alloc: Global) -> OpenTypes
        ensures { result ≡ [] }
    {
        OpenTypes {
            kinds: Vec::new(alloc),
        }
    }

    /// A node of the type is opened.
    fn open(&mut self, kind: TypeId) -> Result<(), AllocError>
        ensures { OnOk result (self.new ≡ kind ∷ self.old) }
    {
        self.kinds.push(kind)?;
        Ok(())
    }

    /// The innermost open node is closed by the close of a node of the type `owner`.
    fn close_as(&mut self, schema: &Schema, owner: TypeId) -> Result<(), Refused>
        ensures { Crosses (compatible (documents_of schema.now.spec)) self.old (Closing owner ∷ []) result self.new }
    {
        match self.kinds.pop() {
            None => Err(Refused::Join),
            Some(kind) => {
                if are_compatible(schema, kind, owner) {
                    Ok(())
                } else {
                    Err(Refused::Join)
                }
            }
        }
    }

    /// Passes over the tokens from..to of a fragment. It is refused exactly where one of the closes meets no open node of a
    /// compatible type.
    #[cycle(cross)]
    pub fn cross(
        &mut self,
        schema: &Schema,
        source: &Fragment,
        from: usize,
        to: usize,
    ) -> Result<(), Refused>
        ensures { Crosses (compatible (documents_of schema.now.spec)) self.old (part from to (owned [] source.now)) result self.new }
    {
        let end = source.size().min(to);
        if end <= from {
            return Ok(());
        }
        let children = source.children();
        self.cross_between(schema, &children, from, end)
    }

    /// Passes over the tokens from..to of nodes. Those that are wholly there leave open what was open, so only the one in
    /// which the part starts and the one in which it ends are looked at.
    #[cycle(cross)]
    fn cross_between(
        &mut self,
        schema: &Schema,
        nodes: &Children<'_>,
        from: usize,
        to: usize,
    ) -> Result<(), Refused>
        requires some { from < to }
        requires within { to ≤ length (list_tokens nodes.now) }
        requires normal { IsNormal nodes.now }
        requires each { EachWhole nodes.now }
        ensures { Crosses (compatible (documents_of schema.now.spec)) self.old (part from to (owned [] (list_tokens nodes.now))) result self.new }
    {
        let first = nodes.find(from);
        let last = nodes.find(to);
        let child = nodes.get(first.index);
        if last.index <= first.index {
            return self.cross_child(schema, child, first.rest, last.rest);
        }
        self.cross_child(schema, child, first.rest, child.size())?;
        if last.rest == 0 {
            return Ok(());
        }
        self.cross_child(schema, nodes.get(last.index), 0, last.rest)
    }

    /// Passes over the tokens from..to of a node. A whole node leaves open what was open.
    #[cycle(cross)]
    fn cross_child(
        &mut self,
        schema: &Schema,
        node: &Node,
        from: usize,
        to: usize,
    ) -> Result<(), Refused>
        ensures { Crosses (compatible (documents_of schema.now.spec)) self.old (part from to (owned [] (node_tokens node.now))) result self.new }
    {
        let size = node.size();
        if to <= from || size <= from {
            return Ok(());
        }
        if from == 0 && size <= to {
            return Ok(());
        }
        self.cross_part(schema, node, from, to)
    }

    /// Passes over the tokens from..to of a node.
    #[cycle(cross)]
    fn cross_part(
        &mut self,
        schema: &Schema,
        node: &Node,
        from: usize,
        to: usize,
    ) -> Result<(), Refused>
        requires { from < to }
        ensures { Crosses (compatible (documents_of schema.now.spec)) self.old (part from to (owned [] (node_tokens node.now))) result self.new }
    {
        match &node.body {
            Body::Children(content) => {
                let size = content.size();
                let start = from.saturating_sub(1);
                self.cross_open(node, from)?;
                self.cross(schema, content, start, to - 1)?;
                self.cross_close(
                    schema,
                    node.kind,
                    start.saturating_sub(size),
                    (to - 1).saturating_sub(size),
                )
            }
            _ => Ok(()),
        }
    }

    /// Passes over the open of a node, where it stands in from..
    fn cross_open(&mut self, head: &Node, from: usize) -> Result<(), AllocError>
        ensures { OnOk result (self.new ≡ unclosed self.old (plain (part from (from + 1) (Opening head.now.kind head.now.attrs head.now.marks ∷ [])))) }
    {
        if from == 0 {
            self.open(head.kind)?;
        }
        Ok(())
    }

    /// Passes over the close of a node, where it stands in from..to.
    fn cross_close(
        &mut self,
        schema: &Schema,
        owner: TypeId,
        from: usize,
        to: usize,
    ) -> Result<(), Refused>
        ensures { Crosses (compatible (documents_of schema.now.spec)) self.old (part from to (Closing owner ∷ [])) result self.new }
    {
        if from == 0 && 0 < to {
            self.close_as(schema, owner)?;
        }
        Ok(())
    }
}
