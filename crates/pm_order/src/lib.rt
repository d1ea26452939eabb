//! What a line asks of a house of many documents: its word, the names in it, and what it asks of one document.
//!
//! The main calls are `word_in` and `wish_in`; `schema_in` and `document_in` read the schema and the document of a line.
//!
//! Proved: each line is exactly one thing, what it asks or the code of its first fault, by the definitions of specs/. Of the
//! text by which a schema is told from others: that it reads as the schema's value, and which text it is where no fraction
//! is in it.
//!
//! Not proved: that there is memory.
#![tactic(auto)]

mod clients;
mod codes;
mod fields;
mod names;
mod naming;
mod opening;
mod positions;
mod values;
mod wish;
mod word;

pub use names::name_in;
pub use naming::{Naming, naming_in};
pub use opening::{Opening, opening_in};
pub use values::{document_in, schema_in};
pub use wish::{Wish, wish_in};
pub use word::{DocWord, Word, word_in};
