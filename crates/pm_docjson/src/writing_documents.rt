//! Documents as JSON values.
ghost use Rattle.std.specs.Prelude.{◌≡◌, ◌==◌, false, IfOk, OnOk, Ok};
ghost use Rattle.serde_json.specs.View.{view};
ghost use Rattle.pm_tokens.specs.Faults.{Valid};
ghost use Rattle.pm_schema.specs.Documents.{documents_of};
ghost use Rattle.pm_docjson.specs.declared.leaves.LeafContent.TheVariants.{Kept};
ghost use Rattle.pm_docjson.specs.Documents.{top_of};
ghost use Rattle.pm_docjson.specs.Reading.{node_of};
ghost use Rattle.pm_docjson.specs.Writing.{doc_written};

use crate::writing_nodes::{branch_json, write_nodes};
use pm_node::Document;
use pm_schema::Schema;
use serde_json::Value as Json;
use std::alloc::{AllocError, Global};

/// The JSON value of a document: its top node, with the nodes of its content.
pub fn document_json(
    alloc: Global,
    schema: &Schema,
    document: &Document,
) -> Result<Json, AllocError>
    ensures written { IfOk result (λ j. view j ≡ doc_written schema.now.spec document.now) }
    ensures again { OnOk result (Valid (documents_of schema.now.spec) document.now
        → (document.now.kind == (documents_of schema.now.spec).text) ≡ false
        → node_of schema.now.spec Kept (doc_written schema.now.spec document.now) ≡ Ok (top_of schema.now.spec document.now)) }
{
    let items = write_nodes(alloc, schema, document.content())?;
    let json = branch_json(
        alloc,
        schema,
        document.kind(),
        document.attrs(),
        document.marks().marks(),
        items,
    )?;
    Ok(json)
}
