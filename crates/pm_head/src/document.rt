//! Line 2: the first document.
ghost use Rattle.std.specs.Prelude.{◌≡◌, ◌<◌, length, IfOk, IfSome, Some};
ghost use Rattle.json.specs.Value.{value_view};
ghost use Rattle.serde_json.specs.Data.{Data};
ghost use Rattle.serde_json.specs.Read.{of_json};
ghost use Rattle.pm_tokens.specs.Faults.{Valid};
ghost use Rattle.pm_schema.specs.Documents.{documents_of};
ghost use Rattle.pm_head.specs.Answers.{Finds};
ghost use Rattle.pm_head.specs.Documents.{FilledTop, TopNode, DocFrom, DocIs, DocLine, top_of};

use crate::code::Code;
use crate::codes::{fill_code, node_code};
use crate::fault::LineError;
use crate::lines::{json_line, tree_line};
use json::{Scratch, Value as Tree};
use pm_auto::TypeId;
use pm_docjson::read_node;
use pm_json::{JsonRef, TreeRef};
use pm_node::{CheckError, Document, Node, make_filled};
use pm_schema::Schema;
use std::alloc::{AllocError, Global};

/// The first document: the one that line 2 writes, or the top type filled where it is null. An error says the code of its
/// first fault, or that there was no memory.
pub fn doc_line(alloc: Global, schema: &Schema, line: &[u8]) -> Result<Document, LineError>
    ensures read { Finds (DocLine schema.now line.now) result }
    ensures valid { IfOk result (Valid (documents_of schema.now.spec)) }
{
    match doc_at_once(alloc, schema, line) {
        Some(read) => read,
        None => {
            let json = json_line(alloc, line)?;
            doc_of(alloc, schema, &json)
        }
    }
}

/// What is read of the line without a value of it. A line that is no JSON is left, and gets its code as a value.
fn doc_at_once(alloc: Global, schema: &Schema, line: &[u8]) -> Option<Result<Document, LineError>>
    ensures read { IfSome result (Finds (DocLine schema.now line.now)) }
    ensures valid { IfSome result (λ r. IfOk r (Valid (documents_of schema.now.spec))) }
{
    let mut scratch = Scratch::new(alloc);
    match tree_line(alloc, line, &mut scratch) {
        Ok(Some(tree)) => doc_of_tree(alloc, schema, &tree),
        Ok(None) => None,
        Err(AllocError) => Some(Err(LineError::NoMemory)),
    }
}

/// What is read of a tree, where each number in it is in the range of one.
fn doc_of_tree(
    alloc: Global,
    schema: &Schema,
    tree: &Tree<'_>,
) -> Option<Result<Document, LineError>>
    ensures read { IfSome result (λ r. (d : Data) × (of_json (value_view tree.now) ≡ Some d) × Finds (DocIs schema.now d) r) }
    ensures valid { IfSome result (λ r. IfOk r (Valid (documents_of schema.now.spec))) }
{
    match TreeRef::new(tree) {
        Some(json) => Some(doc_of(alloc, schema, json)),
        None => None,
    }
}

/// The document that a value is, where it is valid and of the top type, or the code of its first fault.
pub fn doc_of<J: JsonRef>(alloc: Global, schema: &Schema, json: J) -> Result<Document, LineError>
    ensures read { Finds (DocIs schema.now (J.seen json)) result }
    ensures valid { IfOk result (Valid (documents_of schema.now.spec)) }
{
    let node = top_node(alloc, schema, json)?;
    doc_from(alloc, schema, node)
}

/// The first document whose top node this is, where it is valid and of the top type.
fn doc_from(alloc: Global, schema: &Schema, node: Node) -> Result<Document, LineError>
    ensures read { Finds (DocFrom schema.now node) result }
    ensures valid { IfOk result (Valid (documents_of schema.now.spec)) }
{
    if node.kind != top_type(schema) {
        return Err(LineError::Code(Code::InvalidDocument));
    }
    let doc = Document::new(alloc, node)?;
    match doc.check(alloc, schema) {
        Ok(()) => Ok(doc),
        Err(CheckError::NoMemory) => Err(LineError::NoMemory),
        Err(_) => Err(LineError::Code(Code::InvalidDocument)),
    }
}

/// The type of the top node.
fn top_type(schema: &Schema) -> TypeId
    ensures top { result ≡ top_of schema.now.spec }
    ensures inside { result < length schema.now.spec.nodes }
{
    schema.top()
}

/// The top node of the first document.
fn top_node<J: JsonRef>(alloc: Global, schema: &Schema, json: J) -> Result<Node, LineError>
    ensures { Finds (TopNode schema.now (J.seen json)) result }
{
    if json.is_null() {
        return filled_top(alloc, schema);
    }
    match read_node(alloc, schema, json) {
        Ok(node) => Ok(node),
        Err(error) => match node_code(error) {
            Some(code) => Err(LineError::Code(code)),
            None => Err(LineError::NoMemory),
        },
    }
}

/// The top type filled.
fn filled_top(alloc: Global, schema: &Schema) -> Result<Node, LineError>
    ensures { Finds (FilledTop schema.now) result }
{
    match make_filled(alloc, schema, top_type(schema)) {
        Ok(node) => Ok(node),
        Err(error) => match fill_code(error) {
            Some(code) => Err(LineError::Code(code)),
            None => Err(LineError::NoMemory),
        },
    }
}
