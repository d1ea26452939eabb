//! Contents made from left to right.
ghost use Rattle.std.specs.Prelude.{◌≡◌, ◌+◌, ◌<◌, ◌≤◌, ◌^◌, [], ◌∷◌, ◌++◌, OnOk, length};
ghost use Rattle.std.specs.Arc.{arc_value};
ghost use Rattle.pm_tokens.specs.Tokens.{Open, Close};
ghost use Rattle.pm_tokens.specs.Scan.{unclosed, part};
ghost use Rattle.pm_node.specs.Trees.{node_tokens, list_tokens, IsNormal, EachWhole};
ghost use Rattle.pm_build.specs.Frames.{first_of};

use pm_attrs::Attrs;
use pm_auto::TypeId;
use pm_marks::MarkSet;
use pm_node::{Body, Children, Fragment, Node};
use std::alloc::{AllocError, Global};
use std::marker::Model;
use std::sync::Arc;

/// A node that is open, with the content that it has so far.
#[derive(Drop)]
struct Frame {
    kind: TypeId,
    attrs: Attrs,
    marks: MarkSet<Attrs>,
    content: Fragment,
}

/// Nodes made from left to right, out of whole nodes, opens and closes. A contract sees the tokens that it was given.
#[derive(Drop)]
pub struct Builder {
    base: Fragment,
    frames: Vec<Frame>,
}

impl Model for Builder {
    ghost use Rattle.std.specs.Prelude.{List, ◌++◌};
    ghost use Rattle.pm_tokens.specs.Tokens.{Token};
    ghost use Rattle.pm_node.specs.Codes.{tokens_code};

    ghost Value = { List Token };

    ghost coded = { tokens_code };

    ghost use Rattle.pm_build.specs.Frames.{frames_tokens, Whole};

    ghost view = { λ a. a.base ++ frames_tokens a.frames.items };

    ghost invariant = { λ a. Whole a.base a.frames.items };
}

impl Builder {
    /// A builder that was given nothing. It takes no memory.
    pub fn new(alloc: Global) -> Builder
        ensures { result ≡ [] }
    {
        let base = Fragment::new(alloc);
        let _ = base.size();
        Builder {
            base,
            frames: Vec::new(alloc),
        }
    }

    /// The type of the innermost open node.
    pub fn top(&self) -> Option<TypeId>
        ensures { result ≡ first_of (unclosed [] self.now) }
    {
        let len = self.frames.len();
        if len > 0 {
            Some(self.frames[len - 1].kind)
        } else {
            None
        }
    }

    /// Appends a whole node to what is there. After an error the builder may hold anything.
    pub fn push(&mut self, alloc: Global, node: Arc<Node, Global>) -> Result<(), AllocError>
        requires { length self.old + length (node_tokens (arc_value node)) < 2 ^ 32 }
        ensures { OnOk result (self.new ≡ self.old ++ node_tokens (arc_value node)) }
    {
        let len = self.frames.len();
        if len > 0 {
            let top = &mut self.frames[len - 1].content;
            top.push(alloc, node)?;
            let _ = top.size();
        } else {
            self.base.push(alloc, node)?;
            let _ = self.base.size();
        }
        Ok(())
    }

    /// Appends the nodes from..to of others to what is there, shared with them. After an error the builder may hold
    /// anything.
    pub(crate) fn append(
        &mut self,
        alloc: Global,
        nodes: &Children<'_>,
        from: usize,
        to: usize,
    ) -> Result<(), AllocError>
        requires order { from ≤ to }
        requires within { to ≤ length nodes.now }
        requires normal { IsNormal nodes.now }
        requires each { EachWhole nodes.now }
        requires room { length self.old + length (list_tokens (part from to nodes.now)) < 2 ^ 32 }
        ensures { OnOk result (self.new ≡ self.old ++ list_tokens (part from to nodes.now)) }
    {
        let len = self.frames.len();
        if len > 0 {
            let top = &mut self.frames[len - 1].content;
            let done = top.append(alloc, nodes, from, to);
            let _ = top.size();
            done
        } else {
            let done = self.base.append(alloc, nodes, from, to);
            let _ = self.base.size();
            done
        }
    }

    /// Opens a node. After an error the builder may hold anything.
    pub fn open(
        &mut self,
        alloc: Global,
        kind: TypeId,
        attrs: Attrs,
        marks: MarkSet<Attrs>,
    ) -> Result<(), AllocError>
        ensures { OnOk result (self.new ≡ self.old ++ Open kind attrs marks ∷ []) }
    {
        let content = Fragment::new(alloc);
        let _ = content.size();
        self.frames.push(Frame {
            kind,
            attrs,
            marks,
            content,
        })?;
        Ok(())
    }

    /// Closes the innermost open node. After an error the builder may hold anything.
    pub fn close(&mut self, alloc: Global) -> Result<(), AllocError>
        requires open { 0 < length (unclosed [] self.old) }
        requires room { length self.old + 1 < 2 ^ 32 }
        ensures { OnOk result (self.new ≡ self.old ++ Close ∷ []) }
    {
        match self.frames.pop() {
            Some(
                Frame {
                    kind,
                    attrs,
                    marks,
                    content,
                },
            ) => {
                let node = Arc::new(
                    alloc,
                    Node {
                        kind,
                        attrs,
                        marks,
                        body: Body::Children(content),
                    },
                )?;
                self.push(alloc, node)
            }
            None => unreachable!(),
        }
    }

    /// The nodes, where none is open. It takes no memory.
    pub fn finish(self) -> Fragment
        requires { unclosed [] self ≡ [] }
        ensures { result ≡ self }
    {
        let Builder { base, frames } = self;
        drop(frames);
        base
    }
}
