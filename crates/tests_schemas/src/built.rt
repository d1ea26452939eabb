//! A schema that is built of its types.
ghost use Rattle.std.specs.Prelude.{◌≡◌, true, IfOk};
ghost use Rattle.pm_schema.specs.Types.{is_version};

use pm_auto::Expr;
use pm_list::Listed;
use pm_schema::laws::content_decides;
use pm_schema::{AttrSpec, AttrSpecs, NodeSpec, Schema, SchemaSpec};
use pm_value::{Text, Value};
use std::alloc::{AllocError, Global};
use std::test::Fail;

/// An attribute with a default.
fn level(alloc: Global) -> Result<AttrSpecs, AllocError> {
    let name = Text::from_str(alloc, "level")?;
    let default = Some(Value::Int(1));
    AttrSpecs::one(
        alloc,
        AttrSpec {
            name,
            default,
            validate: None,
        },
    )
}

/// A leaf of this name.
fn leaf(alloc: Global, name: &str, attrs: AttrSpecs) -> Result<NodeSpec, AllocError> {
    Ok(NodeSpec {
        name: Text::from_str(alloc, name)?,
        content: Expr::Empty,
        groups: Listed::new(alloc),
        marks: None,
        inline: false,
        atom: false,
        attrs,
    })
}

/// A top type that is a leaf, and the type of texts.
fn spec(alloc: Global) -> Result<SchemaSpec, AllocError>
    ensures { IfOk result (λ s. is_version s.version ≡ true) }
{
    let mut nodes = Listed::new(alloc);
    nodes.push(leaf(alloc, "doc", level(alloc)?)?)?;
    nodes.push(leaf(alloc, "text", AttrSpecs::new(alloc))?)?;
    Ok(SchemaSpec {
        nodes,
        marks: Listed::new(alloc),
        top: Text::from_str(alloc, "doc")?,
        version: 1,
    })
}

#[test]
fn a_schema_is_built_of_its_types(rt: HostRuntime) -> Result<(), Fail> {
    let spec = spec(rt.alloc())?;
    content_decides(&spec);
    let schema = Schema::build(rt.alloc(), spec).ok().ok_or("refused")?;
    assert!(rt; schema.node_count() == 2);
    assert!(rt; schema.top() == 0 && schema.text_type() == 1);
    Ok(())
}
