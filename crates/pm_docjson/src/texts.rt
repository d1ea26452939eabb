//! Nodes and documents as texts.
ghost use Rattle.std.specs.Prelude.{◌≡◌, ◌≤◌, ◌==◌, false, IfOk, Some, string_bytes};
ghost use Rattle.serde_json.specs.Data.{depth};
ghost use Rattle.serde_json.specs.Read.{read, max_depth};
ghost use Rattle.serde_json.specs.Written.{compact_text, has_float};
ghost use Rattle.pm_tokens.specs.Faults.{Valid};
ghost use Rattle.pm_schema.specs.Documents.{documents_of};
ghost use Rattle.pm_docjson.specs.Documents.{ComesBack};
ghost use Rattle.pm_docjson.specs.KeyOrder.{HasOrderedKeys};
ghost use Rattle.pm_docjson.specs.Writing.{doc_written, node_written};

use crate::writing_documents::document_json;
use crate::writing_nodes::write_node;
use pm_node::{Document, Node};
use pm_schema::Schema;
use std::alloc::{AllocError, Global};

/// The text of a node: the compact text of its JSON value, which has no float, and in whose objects the keys stand in byte
/// order. It is read back as that value where the value nests at most 127 levels.
pub fn node_text(alloc: Global, schema: &Schema, node: &Node) -> Result<String, AllocError>
    ensures text { IfOk result (λ s. string_bytes s ≡ compact_text (node_written schema.now.spec node.now)) }
    ensures read { IfOk result (λ s. depth (node_written schema.now.spec node.now) ≤ max_depth
        → read (string_bytes s) ≡ Some (node_written schema.now.spec node.now)) }
    ensures ordered { HasOrderedKeys (node_written schema.now.spec node.now) }
    ensures whole { has_float (node_written schema.now.spec node.now) ≡ false }
{
    let value = write_node(alloc, schema, node)?;
    value.to_string(alloc)
}

/// The text of a document: the compact text of its JSON value, which is that of its top node with the nodes of its content. It
/// has no float, and in its objects the keys stand in byte order. It is read back as that value where the value nests at most
/// 127 levels. That of a valid document nests at most 106, and is read as its top node, unless that is of the type of texts.
pub fn document_text(
    alloc: Global,
    schema: &Schema,
    document: &Document,
) -> Result<String, AllocError>
    ensures text { IfOk result (λ s. string_bytes s ≡ compact_text (doc_written schema.now.spec document.now)) }
    ensures read { IfOk result (λ s. depth (doc_written schema.now.spec document.now) ≤ max_depth
        → read (string_bytes s) ≡ Some (doc_written schema.now.spec document.now)) }
    ensures shallow { Valid (documents_of schema.now.spec) document.now → depth (doc_written schema.now.spec document.now) ≤ 106 }
    ensures back { IfOk result (λ s. Valid (documents_of schema.now.spec) document.now
        → (document.now.kind == (documents_of schema.now.spec).text) ≡ false
        → ComesBack schema.now.spec document.now (string_bytes s)) }
    ensures ordered { HasOrderedKeys (doc_written schema.now.spec document.now) }
    ensures whole { has_float (doc_written schema.now.spec document.now) ≡ false }
{
    let json = document_json(alloc, schema, document)?;
    json.to_string(alloc)
}
