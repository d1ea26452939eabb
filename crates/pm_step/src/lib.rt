//! Steps as values, a file for each kind: its fields, its copy, how positions move over it, and how it is carried over
//! the steps of others. ProseMirror: `Step` and its eight kinds, `Step.getMap`, `Step.map`.
//!
//! The main calls are `Step::step_map` and `Step::carry`.
//!
//! Proved: the map of a step, and where a mapping carries the step, None exactly where it is lost, as the definitions
//! of pm_meaning say. A copy is equal. What a step does to a document is in pm_apply.
#![tactic(auto)]

mod around;
mod attr;
mod doc_attr;
mod ends;
mod mark;
mod marking;
mod node_mark;
mod replace;
mod step;

pub use around::ReplaceAroundStep;
pub use attr::AttrStep;
pub use doc_attr::DocAttrStep;
pub use mark::MarkStep;
pub use marking::Marking;
pub use node_mark::NodeMarkStep;
pub use replace::ReplaceStep;
pub use step::Step;
