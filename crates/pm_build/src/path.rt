//! The nodes around a position, opened.
ghost use Rattle.std.specs.Prelude.{◌≡◌, ◌≤◌, ◌<◌, ◌++◌, OnOk, length};
ghost use Rattle.pm_node.specs.Trees.{node_tokens};
ghost use Rattle.pm_build.specs.Positions.{path};

use crate::builder::Builder;
use pm_node::{Body, Fragment, Node};
use std::alloc::{AllocError, Global};

impl Builder {
    /// Opens the nodes that are around a position of a content, the outermost first, with their attributes and marks. After
    /// an error the builder may hold anything.
    #[cycle(path)]
    pub fn open_path(
        &mut self,
        alloc: Global,
        source: &Fragment,
        pos: usize,
    ) -> Result<(), AllocError>
        requires { pos ≤ length source.now }
        ensures { OnOk result (self.new ≡ self.old ++ path source.now pos) }
    {
        let children = source.children();
        let found = children.find(pos);
        if found.index < children.len() {
            let child = children.get(found.index);
            self.open_path_in(alloc, child, found.rest)
        } else {
            Ok(())
        }
    }

    #[cycle(path)]
    fn open_path_in(&mut self, alloc: Global, node: &Node, pos: usize) -> Result<(), AllocError>
        requires { pos < length (node_tokens node.now) }
        ensures { OnOk result (self.new ≡ self.old ++ path (node_tokens node.now) pos) }
    {
        match &node.body {
            Body::Children(inner) => {
                let _ = inner.size();
                if pos == 0 {
                    return Ok(());
                }
                self.open_copy(alloc, node)?;
                self.open_path(alloc, inner, pos - 1)
            }
            _ => Ok(()),
        }
    }
}
