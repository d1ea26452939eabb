//! What is written of what a JSON value is read as. Keys are written in byte order and without blanks.
use pm_docjson::{has_its_body, node_text, read_mark, read_node, write_mark, write_node};
use pm_node::Node;
use pm_schema::Schema;
use pm_schemajson::read_schema;
use pm_slicejson::{read_slice, write_slice};
use pm_stepjson::{read_step, write_step};
use serde_json::Value as Json;
use std::alloc::Global;
use std::test::Fail;

const SCHEMA: &str =
    r#"{"nodes":[{"name":"doc","content":"(paragraph | rule)*"},{"name":"paragraph","content":"(image | text)*"},{"name":"image","inline":true,"attrs":{"src":{"default":0}}},{"name":"rule"},{"name":"text"}],"marks":[{"name":"link","attrs":{"href":{}}},{"name":"em"}]}"#;

fn schema(alloc: Global) -> Result<Schema, Fail> {
    let json = Json::from_str(alloc, SCHEMA)?;
    Ok(read_schema(alloc, &json)?)
}

/// The text that is written of what a value is read as. The kind says as what it is read.
fn again(alloc: Global, schema: &Schema, kind: &str, text: &str) -> Result<String, Fail> {
    let json = Json::from_str(alloc, text)?;
    match kind {
        "mark" => mark_again(alloc, schema, &json),
        "node" => node_again(alloc, schema, &json),
        "slice" => slice_again(alloc, schema, &json),
        "step" => step_again(alloc, schema, &json),
        _ => Err(Fail::new("no such kind")),
    }
}

fn mark_again(alloc: Global, schema: &Schema, json: &Json) -> Result<String, Fail> {
    let mark = read_mark(alloc, schema, json)?;
    Ok(write_mark(alloc, schema, &mark)?.to_string(alloc)?)
}

fn node_again(alloc: Global, schema: &Schema, json: &Json) -> Result<String, Fail> {
    let node = read_node(alloc, schema, json)?;
    node_written(alloc, schema, &node)
}

/// The text of the node's value, which has to be its text too, and whether its body is one of its type.
fn node_written(alloc: Global, schema: &Schema, node: &Node) -> Result<String, Fail> {
    let written = write_node(alloc, schema, node)?.to_string(alloc)?;
    let text = node_text(alloc, schema, node)?;
    if written.as_str() != text.as_str() {
        return Err(Fail::new("the value has another text"));
    }
    let has_body = has_its_body(schema, node);
    Ok(format!(in alloc; "{} {has_body}", text.as_str())?)
}

fn slice_again(alloc: Global, schema: &Schema, json: &Json) -> Result<String, Fail> {
    let slice = read_slice(alloc, schema, json)?;
    Ok(write_slice(alloc, schema, &slice)?.to_string(alloc)?)
}

fn step_again(alloc: Global, schema: &Schema, json: &Json) -> Result<String, Fail> {
    let step = read_step(alloc, schema, json)?;
    Ok(write_step(alloc, schema, &step)?.to_string(alloc)?)
}

/// The kind, the text that is read, and the one that is written. An attribute that is not given is written with its default,
/// and of a name that stands twice the last value. A leaf may be read with content, which none of its type has. An empty slice is
/// null, and what has its usual value is not written.
const WRITTEN: [(&str, &str, &str); 9] = [
    ("mark", r#"{"type":"em","attrs":{}}"#, r#"{"type":"em"}"#),
    (
        "mark",
        r#"{"type":"link","attrs":{"href":null}}"#,
        r#"{"attrs":{"href":null},"type":"link"}"#,
    ),
    (
        "node",
        r#"{"content":[{"type":"text","text":"a"},{"type":"text","text":"b"},{"type":"image"}],"type":"paragraph"}"#,
        r#"{"content":[{"text":"ab","type":"text"},{"attrs":{"src":0},"type":"image"}],"type":"paragraph"} true"#,
    ),
    (
        "node",
        r#"{"type":"image","attrs":{"src":{"b":[true,-1],"aa":"\ud83d\ude00","b":null}},"content":[{"type":"doc"}]}"#,
        "{\"attrs\":{\"src\":{\"aa\":\"\u{1F600}\",\"b\":null}},\"content\":[{\"type\":\"doc\"}],\"type\":\"image\"} false",
    ),
    (
        "slice",
        r#"{"openStart":1,"openEnd":1,"content":[{"type":"paragraph"}]}"#,
        "null",
    ),
    (
        "slice",
        r#"{"openStart":1,"content":[{"type":"paragraph"},{"type":"rule"}],"openEnd":0}"#,
        r#"{"content":[{"type":"paragraph"},{"type":"rule"}],"openStart":1}"#,
    ),
    (
        "step",
        r#"{"to":4,"stepType":"replace","structure":false,"from":1,"slice":null}"#,
        r#"{"from":1,"stepType":"replace","to":4}"#,
    ),
    (
        "step",
        r#"{"to":15,"stepType":"removeMark","mark":{"type":"em","attrs":null},"from":11}"#,
        r#"{"from":11,"mark":{"type":"em"},"stepType":"removeMark","to":15}"#,
    ),
    (
        "step",
        r#"{"stepType":"docAttr","attr":"a","value":{"c":[-1],"b":"x"},"pos":7}"#,
        r#"{"attr":"a","stepType":"docAttr","value":{"b":"x","c":[-1]}}"#,
    ),
];

#[test]
fn what_is_read_is_written_in_full(rt: HostRuntime) -> Result<(), Fail> {
    let schema = schema(rt.alloc())?;
    for (kind, text, want) in &WRITTEN {
        assert!(rt;
            again(rt.alloc(), &schema, kind, text)?.as_str() == *want,
            "{text}"
        );
    }
    Ok(())
}
