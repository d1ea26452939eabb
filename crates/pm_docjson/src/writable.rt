//! Which nodes can be written.
ghost use Rattle.std.specs.Prelude.{◌≡◌, true};
ghost use Rattle.pm_tokens.specs.Faults.{Valid};
ghost use Rattle.pm_schema.specs.Documents.{documents_of};
ghost use Rattle.pm_node.specs.Documents.{doc_of};
ghost use Rattle.pm_docjson.specs.Writable.{has_its_body, IsWritable, AreWritable};

use pm_node::{Body, Document, Node};
use pm_schema::Schema;

/// Whether the node is of a type of the schema that is not the type of texts, and its body is one of that type: a leaf where
/// the type is a leaf type, and a list of children where it is none. It takes no memory.
#[tactic(auto, unfolding(pm_schema::specs::Documents::documents_of))]
pub fn has_its_body(schema: &Schema, node: &Node) -> bool
    ensures { result ≡ has_its_body schema.now.spec node.now }
{
    let kind = node.kind;
    if kind >= schema.node_count() || kind == schema.text_type() {
        return false;
    }
    match &node.body {
        Body::Text(_) => false,
        Body::Leaf => schema.is_leaf(kind),
        Body::Children(_) => !schema.is_leaf(kind),
    }
}

/// The top node of a valid document can be written where its body is one of its type, which a valid document does not say:
/// no test looks at the body of the top node. The call does nothing.
pub fn valid_is_writable(schema: &Schema, top: &Node)
    requires valid { Valid (documents_of schema.now.spec) (doc_of top.now) }
    requires body { has_its_body schema.now.spec top.now ≡ true }
    ensures { IsWritable schema.now.spec top.now }
{
    let _ = schema.node_count();
    let _ = top.kind;
}

/// The content of a valid document can be written. The call does nothing.
pub fn valid_content_is_writable(schema: &Schema, document: &Document)
    requires { Valid (documents_of schema.now.spec) document.now }
    ensures { AreWritable schema.now.spec document.now.tokens }
{
    let _ = schema.node_count();
    let _ = document.size();
}
