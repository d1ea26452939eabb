//! Names of types.
ghost use Rattle.std.specs.Prelude.{◌≡◌, ◌++◌, codes, OnOk, string_bytes};
ghost use Rattle.pm_schema.specs.Documents.{documents_of};
ghost use Rattle.pm_schema.specs.Types.{node_at};
ghost use Rattle.pm_doctext.specs.Texts.{type_text};

use crate::quoted::push_quoted;
use pm_auto::TypeId;
use pm_schema::Schema;
use std::alloc::{AllocError, Global};

/// The name of a type of nodes; a type beyond the last has none.
pub(crate) fn node_name(schema: &Schema, kind: TypeId) -> &str
    ensures { result.now ≡ (node_at schema.now.spec kind).name }
{
    if kind < schema.node_count() {
        schema.node_name(kind)
    } else {
        ""
    }
}

/// The name of the type of texts.
#[tactic(auto, unfolding(pm_schema::specs::Documents::documents_of))]
pub(crate) fn text_name(schema: &Schema) -> &str
    ensures { result.now ≡ (node_at schema.now.spec (documents_of schema.now.spec).text).name }
{
    schema.node_name(schema.text_type())
}

/// Appends the last member of an object to the text, which is the name of its type.
pub(crate) fn push_type(alloc: Global, text: &mut String, name: &str) -> Result<(), AllocError>
    ensures { OnOk result (string_bytes text.new ≡ string_bytes text.old ++ type_text name.now) }
{
    text.push_str("\"type\":")?;
    push_quoted(alloc, text, name)?;
    text.push_str("}")
}
