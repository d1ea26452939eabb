//! Nodes and marks as JSON values. ProseMirror: `Node.toJSON`, `Node.fromJSON`, `Mark.toJSON`, `Mark.fromJSON`.
//!
//! The main calls are `read_node`, `read_nodes` and `read_mark`, which read off a value of `serde_json` and off a tree alike
//! (`JsonRef` of pm_json), and `write_node`, `write_mark`, `node_text` and `document_text`.
//!
//! Proved: a JSON value is this node or mark, or its first fault, depth first in the order type, text, attrs, marks,
//! content. Every node is written, and where it can be written it is read back as the same node. The text of a document
//! is that of its JSON value. Under a schema whose defaults nest at most four levels deep, what is read can be written.
#![tactic(auto)]

mod fault;
mod fields;
pub mod laws;
mod leaves;
mod reading_attrs;
mod reading_marks;
mod reading_nodes;
mod texts;
mod types;
mod writable;
mod writing_attrs;
mod writing_documents;
mod writing_marks;
mod writing_nodes;

pub use fault::DocReadError;
pub use fields::field;
pub use leaves::LeafContent;
pub use reading_attrs::read_attrs;
pub use reading_marks::read_mark;
pub use reading_nodes::{read_node, read_node_with, read_nodes};
pub use texts::{document_text, node_text};
pub use writable::{has_its_body, valid_content_is_writable, valid_is_writable};
pub use writing_marks::write_mark;
pub use writing_nodes::{write_node, write_nodes};
