//! What fits.
use pm_node::Document;
use pm_step::Step;

/// A step that fits, and the document that it makes.
#[derive(Drop)]
pub struct Fitted {
    pub step: Step,
    pub doc: Document,
}
