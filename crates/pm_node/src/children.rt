//! The children of a fragment, by their numbers.
ghost use Rattle.std.specs.Prelude.{◌≡◌, ◌+◌, ◌<◌, ◌≤◌, length, get_or};
ghost use Rattle.pm_node.specs.Trees.{list_tokens};
ghost use Rattle.pm_node.specs.Among.{Stands};
ghost use Rattle.pm_node.specs.Chunks.{nodes_of, IsBorrowed};
ghost use Rattle.pm_sized.specs.Bound.{find_bound};

use crate::node::Node;
use pm_sized::{Chunks, Steps};
use std::alloc::Global;
use std::marker::Model;
use std::sync::Arc;
use std::sync::ledger::Ledger;

/// The nodes of a fragment in order, borrowed from it. A contract sees them as a list.
#[derive(Drop)]
pub struct Children<'a> {
    pub(crate) nodes: &'a Chunks<Arc<Node, Global>>,
}

impl<'a> Model for Children<'a> {
    ghost use Rattle.std.specs.Prelude.{List};
    ghost use Rattle.std.specs.declared.sync.Arc.{Arc};
    ghost use Rattle.std.specs.declared.alloc.Global.{Global};
    ghost use Rattle.pm_node.specs.declared.node.Node.{Node};

    ghost Value = { List (Arc Node Global) };

    ghost use Rattle.pm_node.specs.contracts.node.Node as node;
    ghost use Rattle.std.specs.Coded.{codes};

    ghost coded = { Prim.hlevel (codes, node.the_row.coded) };

    ghost use Rattle.pm_node.specs.Chunks.{nodes_of, IsBorrowed};

    ghost view = { λ c. nodes_of c.nodes.now };

    ghost invariant = { λ c. IsBorrowed c.nodes.now };
}

/// Where a position stands among children.
#[derive(Clone, Copy)]
pub struct Found {
    /// How many of them end at or before the position.
    pub index: usize,
    /// How many tokens of the next one are before it.
    pub rest: usize,
}

impl<'a> Children<'a> {
    pub(crate) fn new(nodes: &'a Chunks<Arc<Node, Global>>) -> Children<'a>
        requires { IsBorrowed nodes.now }
        ensures { result ≡ nodes_of nodes.now }
    {
        Children { nodes }
    }

    /// The number of tokens of all of them. It takes no memory.
    pub fn size(&self) -> usize
        ensures { result ≡ length (list_tokens self.now) }
    {
        self.nodes.total()
    }

    /// How many there are. It takes no memory.
    pub fn len(&self) -> usize
        ensures { result ≡ length self.now }
    {
        self.nodes.len()
    }

    /// Child `i`, counted from 0. It takes no memory.
    pub fn get(&self, i: usize) -> &'a Arc<Node, Global>
        requires { i < length self.now }
        ensures { result.now ≡ get_or self.now i result.now }
    {
        self.nodes.item(i)
    }

    /// Where a position stands among them, counted in tokens from the start of the first one. It takes no memory.
    pub fn find(&self, pos: usize) -> Found
        requires { pos ≤ length (list_tokens self.now) }
        ensures { Stands self.now pos result.index result.rest }
    {
        let found = self.nodes.locate(pos);
        Found {
            index: found.index,
            rest: pos - found.start,
        }
    }

    /// The same, with the steps of the search counted. Among c children it takes at most 6 steps plus the number of binary
    /// digits of (c + 31) / 32.
    pub fn find_counted<L: Ledger>(&self, pos: usize, steps: &mut Steps<L>) -> Found
        requires { pos ≤ length (list_tokens self.now) }
        ensures found { Stands self.now pos result.index result.rest }
        ensures steps { steps.new ≤ steps.old + find_bound (length self.now) }
    {
        let found = self.nodes.find(pos, steps);
        Found {
            index: found.index,
            rest: pos - found.start,
        }
    }
}
