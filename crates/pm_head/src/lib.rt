//! The first three lines of a session file: the schema, the first document and the clients. And the line that lists the
//! rooms of a file of many.
//!
//! The main calls are `read_head` and `rooms_line`; `schema_line`, `doc_line` and `json_line` read one line each, and
//! `tree_line` reads one as a tree.
//!
//! Proved: the three lines are this schema, this document and these clients, or the least faulty of them has this code.
//! The document is valid, and the lines after the three are given back. A head and a fault exclude each other, and two
//! heads of one text have equal types, documents and clients (`head_means_one`).
//!
//! Not proved: that every text is one or the other.
#![tactic(auto)]

mod clients;
mod code;
mod codes;
mod document;
mod fault;
mod form;
mod laws;
mod lines;
mod names;
mod reading;
mod rooms;
mod schema;

pub use clients::{ClientEntry, raw_flags};
pub use code::Code;
pub use codes::{fill_code, node_code, schema_code};
pub use document::{doc_line, doc_of};
pub use fault::{LineError, Refusal, SessionError};
pub use form::Form;
pub use laws::{head_means_one, schema_means_one};
pub use lines::{first_line, json_line, json_of, tree_line};
pub use names::is_name;
pub use reading::{Head, read_head};
pub use rooms::rooms_line;
pub use schema::{schema_line, schema_of};
