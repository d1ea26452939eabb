//! Values of attributes, and their JSON.
//!
//! The main calls are `Value::from_json` and `Value::to_json`.
//!
//! Proved: `from_json` answers the value, at most four levels deep and with names in byte order, or the first fault
//! depth first. `to_json` writes it, and what was written is read back as the same value. `==` is equality. `Kinds`
//! answers whether a value is of a kind that a schema names.
//!
//! Only tested: that of repeated names the last value stays.
#![tactic(auto)]

mod copying;
mod fault;
mod kinds;
mod reading;
mod same;
mod text;
mod value;
mod writing;

pub use fault::ValueError;
pub use kinds::Kinds;
pub use reading::MAX_DEPTH;
pub use text::Text;
pub use value::{Field, Fields, Items, Value};
