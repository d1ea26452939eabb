//! The nodes around a position.
ghost use Rattle.std.specs.Prelude.{◌≡◌};
ghost use Rattle.std.specs.Coded.{Coded-set};
ghost use Rattle.pm_node.specs.Codes.{tokens_code};
ghost use Rattle.pm_node.specs.Documents.{doc_of};

use pm_node::{Fragment, Node};

/// A node around a position.
#[derive(Drop)]
pub struct Level<'a> {
    pub node: &'a Node,
    /// The nodes in it.
    pub content: &'a Fragment,
    ghost inner: { content.now ≡ (doc_of node.now).tokens } by { Coded-set tokens_code content.now (doc_of node.now).tokens },
    /// The position at the start of its content.
    pub start: usize,
    /// The number of its children that end at or before the position.
    pub index: usize,
}

impl<'a> Level<'a> {
    ghost use Rattle.std.specs.Prelude.{◌+◌, ◌<◌, ◌^◌, length};
    ghost use Rattle.pm_resolve.specs.Levels.{holds};

    /// The position at the end of its content.
    pub fn end(&self) -> usize
        requires { self.now.start + length (doc_of self.now.node.now).tokens < 2 ^ 64 }
        ensures { result ≡ self.now.start + length (doc_of self.now.node.now).tokens }
    {
        self.start + self.content.size()
    }

    /// Whether the position is in its content, or at its start or end.
    pub fn holds(&self, pos: usize) -> bool
        requires { self.now.start + length (doc_of self.now.node.now).tokens < 2 ^ 64 }
        ensures { result ≡ holds pos self.now }
    {
        self.start <= pos && pos <= self.end()
    }
}
