//! What a change of a document is, for code that knows nothing of documents.
//!
//! Code above this crate is written for any type that implements `Change`. It may use what a change means and the laws
//! that each change keeps, and nothing else. `Machine` is what a desk of threads shares; `Name` is the name of a step.
//!
//! Each type that implements `Change` is proved to keep the laws: good documents stay good, inverses that apply restore
//! and under loose rules do apply, maps fit the sizes of documents, a mapping that moves nothing carries a change to
//! itself, and a carried change keeps the sizes that it puts in. pm_apply has the change of documents, pm_flat a small
//! one.
#![tactic(auto)]

pub mod change;
pub mod failed;
pub mod machine;
pub mod name;
pub mod no_step;

pub use change::Change;
pub use failed::Failed;
pub use machine::Machine;
pub use name::Name;
pub use no_step::{MakeError, NoStep};
