//! The law of what is read. The call does nothing; its contract is the law.
ghost use Rattle.std.specs.Prelude.{◌≡◌, []};
ghost use Rattle.serde_json.specs.View.{view};
ghost use Rattle.pm_schema.specs.Defaults.{HasShallowDefaults};
ghost use Rattle.pm_schema.specs.Documents.{documents_of};
ghost use Rattle.pm_schema.specs.Types.{node_at};
ghost use Rattle.pm_slicejson.specs.Laws.{ReadSliceIsWritable};

use pm_schema::Schema;
use serde_json::Value as Json;

/// The content of a slice that is read can be written, so `write_slice` gives a JSON value that is read as this slice. It asks
/// that no default of the schema nests more than four levels deep, as none does that JSON gives.
pub fn read_slice_can_be_written(schema: &Schema, json: &Json)
    ensures { HasShallowDefaults schema.now.spec → ReadSliceIsWritable schema.now.spec (view json.now) }
{
    texts_are_plain(schema);
    let _ = json;
}

/// The type of texts has no attributes.
#[tactic(auto, unfolding(pm_schema::specs::Documents::documents_of))]
fn texts_are_plain(schema: &Schema)
    ensures { (node_at schema.now.spec (documents_of schema.now.spec).text).attrs ≡ [] }
{
    let _ = schema.text_type();
}
