//! Nodes around a content.
ghost use Rattle.std.specs.Prelude.{◌≡◌, ◌+◌, ◌*◌, ◌<◌, ◌^◌, length, IfOk};
ghost use Rattle.pm_schema.specs.Types.{node_at};
ghost use Rattle.pm_node.specs.Filled.{around, defaults};
ghost use Rattle.pm_fit.specs.Wrappings.{in_nodes};

use pm_attrs::Attrs;
use pm_auto::TypeId;
use pm_marks::MarkSet;
use pm_node::{Body, Fragment, Node};
use pm_schema::{AnyType, Schema};
use std::alloc::{AllocError, Global};
use std::sync::Arc;

/// The content in nodes of these types with default attributes and no marks, the outermost first.
pub fn in_nodes(
    alloc: Global,
    schema: &Schema,
    kinds: &[TypeId],
    content: Fragment,
) -> Result<Fragment, AllocError>
    requires { 2 * length kinds.now + length content < 2 ^ 32 }
    ensures { IfOk result (λ f. f ≡ in_nodes schema.now.spec kinds.now content) }
{
    if kinds.len() == 0 {
        return Ok(content);
    }
    let inner = in_nodes(alloc, schema, &kinds[1..], content)?;
    in_node(alloc, schema, kinds[0], inner)
}

/// The content in a node of the type with default attributes and no marks.
fn in_node(
    alloc: Global,
    schema: &Schema,
    kind: TypeId,
    content: Fragment,
) -> Result<Fragment, AllocError>
    requires { length content + 2 < 2 ^ 32 }
    ensures { IfOk result (λ f. f ≡ around schema.now.spec kind content) }
{
    let _ = content.size();
    let attrs = default_attrs(alloc, schema, kind)?;
    let node = Node {
        kind,
        attrs,
        marks: MarkSet::empty(alloc),
        body: Body::Children(content),
    };
    let mut made = Fragment::new(alloc);
    made.push(alloc, Arc::new(alloc, node)?)?;
    Ok(made)
}

/// The default of each attribute of the type; none where it is no type of the schema. Nothing is given and each attribute
/// of a type that wraps has a default, so that nothing but memory can be wanting.
fn default_attrs(alloc: Global, schema: &Schema, kind: TypeId) -> Result<Attrs, AllocError>
    ensures { IfOk result (λ a. a ≡ defaults (node_at schema.now.spec kind).attrs) }
{
    if kind >= schema.node_count() {
        return Ok(Attrs::new(Vec::new(alloc)));
    }
    match schema.attrs_for(alloc, AnyType::Node(kind), Vec::new(alloc)) {
        Ok(attrs) => Ok(attrs),
        Err(_) => Err(AllocError),
    }
}
