//! Schemas from JSON: `read_schema` answers the schema that a JSON value writes, or its first fault.
//!
//! Proved: the schema is the one that the value writes, of which all holds that building promises, or the fault is its
//! first one: fields in order, then expressions, then building. Each default nests at most four levels deep, which
//! pm_docjson, pm_slicejson and pm_stepjson ask of a schema.
#![tactic(auto)]

mod attrs;
mod content;
mod error;
mod exprs;
mod fields;
mod kinds;
mod marks;
mod named;
mod nodes;
mod reading;
mod versions;
mod words;

pub use error::{Field, SchemaReadError};
pub use reading::read_schema;
