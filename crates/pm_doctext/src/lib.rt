//! The texts of documents, appended straight to a text: no JSON value of the document is made, and no text beside.
//!
//! The one call is `push_document`.
//!
//! Proved: what it appends is the compact text of the document's JSON value, the bytes that `document_text` of
//! pm_docjson gives, and what the text held before stays.
//!
//! Not proved: that no node is copied.
#![tactic(auto)]

mod attrs;
mod documents;
mod marks;
mod nodes;
mod quoted;
mod types;

pub use documents::push_document;
