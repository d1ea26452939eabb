//! Tables with ample memory: the sizes of filled nodes, and why there are none.
use pm_auto::TypeId;
use pm_head::schema_line;
use pm_node::{FillError, Node, make_filled};
use pm_schema::Schema;
use std::alloc::Global;
use std::test::Fail;

/// A leaf, an image that has a source, and a quote of paragraphs of texts.
const SCHEMA: &str = r#"{"topNode":"quote","nodes":[
    {"name":"text"},{"name":"leaf"},{"name":"image","attrs":{"src":{}}},
    {"name":"paragraph","content":"text*"},{"name":"quote","content":"paragraph+"}],"marks":[]}"#;

const PARAGRAPH: TypeId = 3;

const QUOTE: TypeId = 4;

/// Types, and the sizes of their filled nodes.
const SIZES: [(TypeId, Result<usize, FillError>); 5] = [
    (0, Err(FillError::NotGeneratable)),
    (1, Ok(1)),
    (2, Err(FillError::NotGeneratable)),
    (PARAGRAPH, Ok(2)),
    (QUOTE, Ok(4)),
];

/// The filled node of the type, which is one of the schema's.
fn filled(alloc: Global, schema: &Schema, kind: TypeId) -> Result<Node, FillError> {
    if schema.node_count() <= kind {
        return Err(FillError::NoMemory);
    }
    make_filled(alloc, schema, kind)
}

/// The size of the filled node of the type.
fn size_of(alloc: Global, schema: &Schema, kind: TypeId) -> Result<usize, FillError> {
    Ok(filled(alloc, schema, kind)?.size())
}

#[test]
fn nodes_are_filled(rt: HostRuntime) -> Result<(), Fail> {
    let schema = schema_line(rt.alloc(), SCHEMA.as_bytes())?;
    for (kind, size) in &SIZES {
        assert!(rt; size_of(rt.alloc(), &schema, *kind) == *size, "{kind}");
    }
    Ok(())
}
