//! The types that each schema must have.
ghost use Rattle.std.specs.Prelude.{◌≡◌, ◌<◌, true, length, codes, IfOk, IfErr, OnOk, Some, IfSome, position};
ghost use Rattle.std.specs.Str.{bytes_eq};
ghost use Rattle.pm_schema.specs.Names.{place_of};
ghost use Rattle.pm_schema.specs.Types.{names_of_nodes, node_names};
ghost use Rattle.pm_schema.specs.Refusals.{has_types, IsRefused};

use crate::error::SchemaError;
use crate::spec::{NodeSpec, SchemaSpec};
use pm_auto::TypeId;

/// The place of the first node type with the name.
fn find(nodes: &[NodeSpec], name: &str) -> Option<TypeId>
    ensures place { result ≡ place_of name.now (node_names nodes.now) }
    ensures inside { IfSome result (λ k. k < length nodes.now) }
{
    first_named(nodes, name)
}

fn first_named(nodes: &[NodeSpec], name: &str) -> Option<TypeId>
    ensures place { result ≡ position (λ n. bytes_eq name.now n.name) nodes.now }
    ensures inside { IfSome result (λ k. k < length nodes.now) }
{
    nodes.iter().position(|n| name == n.name.as_str())
}

/// The place of the top type and that of the type of texts. `NoTop` where no type has the top name or it is `text`, else
/// `NoText` where no type is called `text`, else `TextAttrs` where that type has an attribute or content.
pub fn find_types(spec: &SchemaSpec) -> Result<(TypeId, TypeId), SchemaError>
    ensures top { IfOk result (λ r. place_of spec.now.top (names_of_nodes spec.now) ≡ Some r.0) }
    ensures text { IfOk result (λ r. place_of (codes "text") (names_of_nodes spec.now) ≡ Some r.1) }
    ensures types { OnOk result (has_types spec.now ≡ true) }
    ensures refused { IfErr result (IsRefused spec.now) }
{
    let nodes = spec.nodes.as_slice();
    if "text" == spec.top.as_str() {
        return Err(SchemaError::NoTop);
    }
    let Some(top) = find(nodes, spec.top.as_str()) else {
        return Err(SchemaError::NoTop);
    };
    let Some(text) = find(nodes, "text") else {
        return Err(SchemaError::NoText);
    };
    let node = &nodes[text];
    if node.attrs.as_slice().len() == 0 && node.is_leaf() {
        Ok((top, text))
    } else {
        Err(SchemaError::TextAttrs)
    }
}
