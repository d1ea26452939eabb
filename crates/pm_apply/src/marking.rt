//! Changes of the marks of a token.
ghost use Rattle.std.specs.Prelude.{◌≡◌, ◌<◌, ◌&&◌, ◌||◌, true, length, IfOk};
ghost use Rattle.pm_schema.specs.Documents.{documents_of};
ghost use Rattle.pm_apply.specs.Markings.{changed, acts};

use pm_attrs::Attrs;
use pm_auto::TypeId;
use pm_marks::MarkSet;
use pm_schema::Schema;
use pm_step::Marking;
use std::alloc::{AllocError, Global};

/// Which tokens a mark step acts on: those that are inline, or the opens and leaves.
#[derive(Clone, Copy)]
pub enum Reach {
    Inline,
    Nodes,
}

/// What a token is to a mark step.
#[derive(Clone, Copy)]
pub struct Sort {
    /// It is a unit, an inline leaf, or the open of an inline atom.
    pub takes: bool,
    /// It is a unit, or of an inline type.
    pub inline: bool,
    /// It is an open or a leaf.
    pub node: bool,
}

/// What a unit is to a mark step.
pub const UNIT: Sort = Sort {
    takes: true,
    inline: true,
    node: false,
};

/// The set with the mark added, or without it.
pub fn change(
    alloc: Global,
    schema: &Schema,
    marking: &Marking,
    set: &MarkSet<Attrs>,
) -> Result<MarkSet<Attrs>, AllocError>
    ensures { IfOk result (λ s. s ≡ changed (documents_of schema.now.spec) marking.now set.now) }
{
    match marking {
        Marking::Add(mark) => set.add(alloc, schema.rules(), mark),
        Marking::Remove(mark) => set.remove(alloc, mark),
    }
}

impl Reach {
    /// Whether the step acts on a token of this sort in a node of the type `parent`.
    pub fn acts(self, schema: &Schema, marking: &Marking, sort: Sort, parent: TypeId) -> bool
        requires { parent < length schema.now.spec.nodes }
        ensures { result ≡ acts (documents_of schema.now.spec) marking.now self sort.takes sort.inline sort.node parent }
    {
        match (self, marking) {
            (Reach::Inline, Marking::Add(mark)) => sort.takes && schema.allows(parent, mark.kind),
            (Reach::Inline, Marking::Remove(_)) => sort.inline,
            (Reach::Nodes, _) => sort.node,
        }
    }
}

impl Sort {
    /// What the open of a node of the type, or a leaf of it, is to a mark step.
    pub fn of(schema: &Schema, kind: TypeId, is_leaf: bool) -> Sort
        requires { kind < length schema.now.spec.nodes }
        ensures takes { result.takes ≡ ((documents_of schema.now.spec).is_inline kind && (is_leaf || (documents_of schema.now.spec).is_atom kind)) }
        ensures inline { result.inline ≡ (documents_of schema.now.spec).is_inline kind }
        ensures node { result.node ≡ true }
    {
        let inline = schema.is_inline(kind);
        Sort {
            takes: inline && (is_leaf || schema.is_atom(kind)),
            inline,
            node: true,
        }
    }
}
