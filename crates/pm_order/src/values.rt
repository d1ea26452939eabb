//! The schema and the document in a line.
ghost use Rattle.std.specs.Prelude.{◌≡◌, ◌<◌, length, codes, IfOk};
ghost use Rattle.serde_json.specs.View.{view};
ghost use Rattle.pm_tokens.specs.Faults.{Valid};
ghost use Rattle.pm_schema.specs.Documents.{documents_of};
ghost use Rattle.pm_head.specs.Answers.{Finds};
ghost use Rattle.pm_head.specs.Schemas.{SchemaIs};
ghost use Rattle.pm_head.specs.Documents.{FilledTop, TopNode, DocFrom, DocIs, top_of};
ghost use Rattle.pm_order.specs.Values.{SchemaIn, DocumentIn};

use crate::codes::{fill_code, schema_code};
use pm_auto::TypeId;
use pm_docjson::read_node;
use pm_head::{Code, LineError, node_code};
use pm_node::{CheckError, Document, Node, make_filled};
use pm_schema::Schema;
use pm_schemajson::read_schema;
use serde_json::Value;
use std::alloc::Global;

/// The schema at `schema`. An error says the code of its first fault, or that there was no memory.
pub fn schema_in(alloc: Global, json: &Value) -> Result<Schema, LineError>
    ensures { Finds (SchemaIn (view json.now)) result }
{
    match json.get("schema") {
        Some(value) => schema_of(alloc, value),
        None => Err(LineError::Code(Code::WrongShape)),
    }
}

fn schema_of(alloc: Global, json: &Value) -> Result<Schema, LineError>
    ensures { Finds (SchemaIs (view json.now)) result }
{
    match read_schema(alloc, json) {
        Ok(schema) => Ok(schema),
        Err(error) => match schema_code(error) {
            Some(code) => Err(LineError::Code(code)),
            None => Err(LineError::NoMemory),
        },
    }
}

/// The document at `doc`, or the top type filled where it is null. An error says the code of its first fault, or that there was
/// no memory.
pub fn document_in(alloc: Global, schema: &Schema, json: &Value) -> Result<Document, LineError>
    ensures read { Finds (DocumentIn schema.now (view json.now)) result }
    ensures valid { IfOk result (Valid (documents_of schema.now.spec)) }
{
    match json.get("doc") {
        Some(value) => doc_of(alloc, schema, value),
        None => Err(LineError::Code(Code::WrongShape)),
    }
}

fn doc_of(alloc: Global, schema: &Schema, json: &Value) -> Result<Document, LineError>
    ensures read { Finds (DocIs schema.now (view json.now)) result }
    ensures valid { IfOk result (Valid (documents_of schema.now.spec)) }
{
    let node = top_node(alloc, schema, json)?;
    doc_from(alloc, schema, node)
}

/// The document whose top node this is, where it is valid and of the top type.
fn doc_from(alloc: Global, schema: &Schema, node: Node) -> Result<Document, LineError>
    ensures read { Finds (DocFrom schema.now node) result }
    ensures valid { IfOk result (Valid (documents_of schema.now.spec)) }
{
    if node.kind != top_type(schema) {
        return Err(LineError::Code(Code::InvalidDocument));
    }
    let doc = Document::new(alloc, node)?;
    match doc.check(alloc, schema) {
        Ok(()) => Ok(doc),
        Err(CheckError::NoMemory) => Err(LineError::NoMemory),
        Err(_) => Err(LineError::Code(Code::InvalidDocument)),
    }
}

/// The type of the top node.
fn top_type(schema: &Schema) -> TypeId
    ensures top { result ≡ top_of schema.now.spec }
    ensures inside { result < length schema.now.spec.nodes }
{
    schema.top()
}

/// The top node of the document.
fn top_node(alloc: Global, schema: &Schema, json: &Value) -> Result<Node, LineError>
    ensures { Finds (TopNode schema.now (view json.now)) result }
{
    if json.is_null() {
        return filled_top(alloc, schema);
    }
    match read_node(alloc, schema, json) {
        Ok(node) => Ok(node),
        Err(error) => match node_code(error) {
            Some(code) => Err(LineError::Code(code)),
            None => Err(LineError::NoMemory),
        },
    }
}

/// The top type filled.
fn filled_top(alloc: Global, schema: &Schema) -> Result<Node, LineError>
    ensures { Finds (FilledTop schema.now) result }
{
    match make_filled(alloc, schema, top_type(schema)) {
        Ok(node) => Ok(node),
        Err(error) => match fill_code(error) {
            Some(code) => Err(LineError::Code(code)),
            None => Err(LineError::NoMemory),
        },
    }
}
