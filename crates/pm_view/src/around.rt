//! The nodes around the parts that come next.
use pm_node::{Fragment, Node};

/// A node around the next part, and where its parent's content goes on after it: at `at`, counted in tokens.
#[derive(Clone, Copy)]
pub(crate) struct Around<'a> {
    pub(crate) node: &'a Node,
    pub(crate) content: &'a Fragment,
    pub(crate) at: usize,
}
