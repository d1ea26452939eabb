//! What an editor asks for.
use pm_attrs::Attrs;
use pm_auto::TypeId;
use pm_marks::Mark;
use pm_node::Node;
use pm_slice::Slice;
use pm_step::Step;
use pm_value::{Text, Value};

/// An edit of a document. Positions are in tokens, and depths in nodes around a position.
#[derive(Drop)]
pub enum Op {
    /// Puts a text in place of what stands from `from` to `to`, with the marks that stand at `from`.
    InsertText {
        from: u64,
        to: u64,
        text: Text,
    },
    /// Takes out what stands from `from` to `to`.
    Delete {
        from: u64,
        to: u64,
    },
    /// Puts a slice in place of what stands from `from` to `to`, fitted to the place.
    Paste {
        from: u64,
        to: u64,
        slice: Slice,
    },
    /// Puts a node in at `pos`.
    InsertNode {
        pos: u64,
        node: Node,
    },
    /// Splits the `depth` innermost nodes around `pos`.
    Split {
        pos: u64,
        depth: u64,
    },
    /// Joins the nodes that end and begin at `pos`, `depth` of them within one another.
    Join {
        pos: u64,
        depth: u64,
    },
    /// Puts a node of the type around what stands from `from` to `to`.
    Wrap {
        from: u64,
        to: u64,
        kind: TypeId,
        attrs: Attrs,
    },
    /// Puts the content of the node that begins at `pos` in its place.
    Lift {
        pos: u64,
    },
    /// Gives the node that begins at `pos` another type and attributes.
    SetType {
        pos: u64,
        kind: TypeId,
        attrs: Attrs,
    },
    /// Adds a mark to what stands from `from` to `to`.
    AddMark {
        from: u64,
        to: u64,
        mark: Mark<Attrs>,
    },
    /// Takes a mark from what stands from `from` to `to`.
    RemoveMark {
        from: u64,
        to: u64,
        mark: Mark<Attrs>,
    },
    /// Gives an attribute of the node that begins at `pos` another value.
    SetAttr {
        pos: u64,
        attr: Text,
        value: Value,
    },
    /// Gives an attribute of the document's top node another value.
    SetDocAttr {
        attr: Text,
        value: Value,
    },
    /// Makes this step.
    Step(Step),
}
