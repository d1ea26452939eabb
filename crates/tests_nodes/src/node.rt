//! Documents that no JSON is read as.
use pm_attrs::Attrs;
use pm_auto::TypeId;
use pm_head::schema_line;
use pm_marks::MarkSet;
use pm_node::{Body, CheckError, Document, Fragment, Node, Units};
use pm_schema::Schema;
use std::alloc::{AllocError, Global};
use std::test::Fail;

const SCHEMA: &str = r#"{"nodes":[
    {"name":"doc","content":"paragraph+"},{"name":"paragraph","content":"text*"},{"name":"text"}]}"#;

const DOC: TypeId = 0;

const PARAGRAPH: TypeId = 1;

const TEXT: TypeId = 2;

fn node(alloc: Global, kind: TypeId, body: Body) -> Node {
    Node {
        kind,
        attrs: Attrs::new(Vec::new(alloc)),
        marks: MarkSet::empty(alloc),
        body,
    }
}

/// A node with these children.
fn block(alloc: Global, kind: TypeId, nodes: Vec<Node>) -> Result<Node, Fail> {
    if !Fragment::can_hold(&nodes) {
        return Err(Fail::new("too many tokens"));
    }
    let content = Fragment::from_nodes(alloc, nodes)?;
    Ok(node(alloc, kind, Body::Children(content)))
}

/// A text of one unit for each.
fn texts(alloc: Global, units: &[u16]) -> Result<Vec<Node>, AllocError> {
    let mut nodes = Vec::new(alloc);
    for unit in units {
        let units = Units::of_units(alloc, &[*unit])?;
        nodes.push(node(alloc, TEXT, Body::Text(units)))?;
    }
    Ok(nodes)
}

/// The document with a paragraph of these texts.
fn document(alloc: Global, units: &[u16]) -> Result<Document, Fail> {
    let paragraph = block(alloc, PARAGRAPH, texts(alloc, units)?)?;
    let top = block(alloc, DOC, vec![in alloc; paragraph]?)?;
    Ok(Document::new(alloc, top)?)
}

/// Texts of one unit each, and the first fault of the document with them: halves of pairs at an end and the wrong way round,
/// and after a letter.
const FAULTS: [(&[u16], Option<CheckError>); 4] = [
    (&[97, 0xD83D, 0xDE00, 98], None),
    (&[97, 0xD83D], Some(CheckError::Pair { at: 3 })),
    (&[0xDE00, 0xD83D], Some(CheckError::Pair { at: 2 })),
    (&[97, 0xDE00, 98], Some(CheckError::Pair { at: 3 })),
];

/// The first fault of a copy of the document.
fn fault_of(alloc: Global, schema: &Schema, units: &[u16]) -> Result<Option<CheckError>, Fail> {
    let document = document(alloc, units)?.copy()?;
    Ok(document.check(alloc, schema).err())
}

#[test]
fn a_half_of_a_pair_is_named_by_its_place(rt: HostRuntime) -> Result<(), Fail> {
    let schema = schema_line(rt.alloc(), SCHEMA.as_bytes())?;
    for (number, (units, fault)) in FAULTS.iter().enumerate() {
        assert!(rt;
            fault_of(rt.alloc(), &schema, units)? == *fault,
            "row {number}"
        );
    }
    Ok(())
}
