//! Places.
ghost use Rattle.std.specs.Prelude.{◌≡◌, ◌<◌, ◌≤◌, length, IfOk};
ghost use Rattle.pm_tokens.specs.Scan.{depth_at, shared_depth};
ghost use Rattle.pm_node.specs.Documents.{doc_of};
ghost use Rattle.pm_node.specs.Trees.{node_tokens};
ghost use Rattle.pm_resolve.specs.Places.{node_around, whole_tokens, start_at, end_at, index_at, marks_at, inclusive_in};
ghost use Rattle.pm_resolve.specs.Levels.{Path};

use crate::level::Level;
use crate::marks::marks_among;
use pm_attrs::Attrs;
use pm_marks::MarkSet;
use pm_node::{Document, Node};
use pm_schema::Schema;
use std::alloc::{AllocError, Global};
use std::marker::Model;

/// A position of a document with the nodes around it. A contract sees the document and the position. Depth 0 is that of the
/// top node.
/// ProseMirror: `ResolvedPos`.
#[derive(Drop)]
pub struct Place<'a> {
    doc: &'a Document,
    pos: usize,
    levels: Vec<Level<'a>>,
}

impl<'a> Model for Place<'a> {
    ghost use Rattle.pm_resolve.specs.Places.{Position};
    ghost use Rattle.pm_resolve.specs.Codes.{position_code};

    ghost Value = { Position };

    ghost coded = { position_code };

    ghost view = { λ p. record { doc = p.doc.now; pos = p.pos } };

    ghost use Rattle.pm_resolve.specs.Levels.{Path};

    ghost invariant = { λ p. Path p.doc.now p.pos p.levels.items };
}

impl<'a> Place<'a> {
    pub(crate) fn new(doc: &'a Document, pos: usize, levels: Vec<Level<'a>>) -> Place<'a>
        requires { Path doc.now pos levels.items }
        ensures document { result.doc ≡ doc.now }
        ensures position { result.pos ≡ pos }
    {
        Place { doc, pos, levels }
    }

    /// How many nodes are around the place, the top node not counted. It takes no memory.
    pub fn depth(&self) -> usize
        ensures { result ≡ depth_at self.now.doc.tokens self.now.pos }
    {
        self.levels.len() - 1
    }

    /// The node around the place at depth `d`. It takes no memory.
    pub fn node(&self, d: usize) -> &'a Node
        requires { d ≤ depth_at self.now.doc.tokens self.now.pos }
        ensures node { doc_of result.now ≡ node_around self.now.doc self.now.pos d }
        ensures whole { 0 < d → node_tokens result.now ≡ whole_tokens (node_around self.now.doc self.now.pos d) }
    {
        self.levels[d].node
    }

    /// The number of children of the node at depth `d` that end at or before the place. It takes no memory.
    pub fn index(&self, d: usize) -> usize
        requires { d ≤ depth_at self.now.doc.tokens self.now.pos }
        ensures { result ≡ index_at self.now.doc self.now.pos d }
    {
        self.levels[d].index
    }

    /// The position at the start of the content of the node at depth `d`. It takes no memory.
    pub fn start(&self, d: usize) -> usize
        requires { d ≤ depth_at self.now.doc.tokens self.now.pos }
        ensures { result ≡ start_at self.now.doc self.now.pos d }
    {
        self.levels[d].start
    }

    /// The position at the end of the content of the node at depth `d`. It takes no memory.
    pub fn end(&self, d: usize) -> usize
        requires { d ≤ depth_at self.now.doc.tokens self.now.pos }
        ensures { result ≡ end_at self.now.doc self.now.pos d }
    {
        self.levels[d].end()
    }

    /// How many nodes are around both the place and another position, the top node not counted. It takes no memory.
    /// ProseMirror: `ResolvedPos.sharedDepth`.
    pub fn shared_depth(&self, pos: usize) -> usize
        requires { pos ≤ length self.now.doc.tokens }
        ensures { result ≡ shared_depth self.now.doc.tokens self.now.pos pos }
    {
        let inner = &self.levels[1..];
        for (depth, level) in inner.iter().enumerate() {
            if !level.holds(pos) {
                return depth;
            }
        }
        inner.len()
    }

    /// The marks of a text that is put in at the place. In an empty parent there are none. Inside a text they are that
    /// text's. Else they are those of the node before, or of the node after where none is before, without marks whose type
    /// is not inclusive and which the other neighbour lacks.
    /// ProseMirror: `ResolvedPos.marks`.
    pub fn marks(&self, alloc: Global, schema: &Schema) -> Result<MarkSet<Attrs>, AllocError>
        ensures { IfOk result (λ m. m ≡ marks_at (inclusive_in schema.now.spec) self.now.doc self.now.pos) }
    {
        let level = &self.levels[self.depth()];
        marks_among(
            alloc,
            schema,
            &level.content.children(),
            self.pos - level.start,
        )
    }
}
