//! Laws of what is read. Each call does nothing; its contract is the law.
//!
//! They ask that no default of the schema nests more than four levels deep, as none does that JSON gives.
ghost use Rattle.serde_json.specs.View.{view, items_view};
ghost use Rattle.pm_schema.specs.Defaults.{HasShallowDefaults};
ghost use Rattle.pm_docjson.specs.Laws.{ReadMarkFits, ReadNodeComesBack, ReadNodesAreWritable};

use crate::types::text_type;
use pm_schema::Schema;
use serde_json::Value as Json;

/// A mark that is read can be written, so `write_mark` gives a JSON value that is read as this mark.
pub fn read_mark_can_be_written(schema: &Schema, json: &Json)
    ensures { HasShallowDefaults schema.now.spec → ReadMarkFits schema.now.spec (view json.now) }
{
    let _ = schema.node_count();
    let _ = json;
}

/// A node that is read can be written, so `write_node` gives a JSON value that is read as this node. Where content of leaf
/// types is kept, this holds of a node in which no node of a leaf type has content.
pub fn read_node_can_be_written(schema: &Schema, json: &Json)
    ensures { HasShallowDefaults schema.now.spec → ReadNodeComesBack schema.now.spec (view json.now) }
{
    let _ = text_type(schema);
    let _ = json;
}

/// Nodes that are read, where content of leaf types is refused, can be written, so `write_nodes` gives JSON values that are
/// read as these nodes.
pub fn read_nodes_can_be_written(schema: &Schema, items: &[Json])
    ensures { HasShallowDefaults schema.now.spec → ReadNodesAreWritable schema.now.spec (items_view items.now) }
{
    let _ = text_type(schema);
    let _ = items;
}
