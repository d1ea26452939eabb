//! A run of tokens.

use pm_change::Name;

/// Neighbouring tokens of one author. `author`: the name of the step that put them in; None where they were in the document
/// before the steps. `count`: how many tokens these are, at least one.
#[derive(Clone, Copy, Debug, PartialEq, Eq)]
pub struct Run {
    pub author: Option<Name>,
    pub count: u64,
}
