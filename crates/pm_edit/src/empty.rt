//! A node without content, and whether a type may have none else.
ghost use Rattle.std.specs.Prelude.{◌≡◌, IfOk};
ghost use Rattle.pm_edit.specs.Nodes.{empty_node};
ghost use Rattle.pm_edit.specs.Edits.{is_leaf};

use crate::slices::closed;
use pm_attrs::Attrs;
use pm_auto::TypeId;
use pm_marks::{MarkSet, Same};
use pm_node::{Body, Fragment, Node};
use pm_schema::Schema;
use pm_slice::Slice;
use std::alloc::{AllocError, Global};
use std::sync::Arc;

/// Whether nodes of the type have no content; a type that is none of the schema's has none. It takes no memory.
pub fn is_leaf(schema: &Schema, kind: TypeId) -> bool
    ensures { result ≡ is_leaf schema.now kind }
{
    kind >= schema.node_count() || schema.is_leaf(kind)
}

/// A node of the type without content, as a slice.
pub fn empty_node(
    alloc: Global,
    kind: TypeId,
    attrs: &Attrs,
    marks: MarkSet<Attrs>,
) -> Result<Slice, AllocError>
    ensures { IfOk result (λ s. s ≡ empty_node kind attrs.now marks) }
{
    let inner = Fragment::new(alloc);
    let _ = inner.size();
    let node = Node {
        kind,
        attrs: attrs.copy(alloc)?,
        marks,
        body: Body::Children(inner),
    };
    let mut content = Fragment::new(alloc);
    content.push(alloc, Arc::new(alloc, node)?)?;
    Ok(closed(alloc, content))
}
