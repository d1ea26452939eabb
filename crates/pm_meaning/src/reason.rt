//! Why a step does not apply.
use thiserror::Error;

/// Why a step does not apply to a document, in the order in which it is decided: the first that holds is the answer. For a step
/// that changes an attribute NoNode, NoAttribute and BadValue come before Large, Deep and Content.
#[derive(Clone, Copy, Debug, PartialEq, Eq, Error)]
pub enum Reason {
    /// The positions are not in order or pass the size of the content, or `insert` passes the size of the slice.
    #[error("the positions are not in order within the document")]
    Range,
    /// The step has `structure`, and a range that it overwrites is not closes followed by opens.
    #[error("content would be overwritten")]
    Structure,
    /// The tokens of the gap are not whole nodes.
    #[error("the gap is no list of whole nodes")]
    Gap,
    /// The slice's open sides do not fit the depths of the two positions.
    #[error("the open sides do not fit the depths")]
    Depth,
    /// A position parts a pair of surrogates, in the document or in the slice.
    #[error("a position parts a surrogate pair")]
    Pair,
    /// A node of one type would be closed by a node of a type that is not compatible with it.
    #[error("two types cannot be joined")]
    Join,
    /// The result would have too many tokens.
    #[error("the document would be too large")]
    Large,
    /// The result would nest too deep.
    #[error("the document would be too deep")]
    Deep,
    /// The result would have a fault of content, marks or attributes, or a broken surrogate pair. `at` is the least place:
    /// 0 is the top node, and p + 1 the node or unit whose token is the p-th.
    #[error("the document would not be valid at {at}")]
    Content { at: usize },
    /// No node begins at the position.
    #[error("no node is there")]
    NoNode,
    /// The type of the node that begins at the position, or of the top node, declares no attribute of the step's name.
    #[error("no such attribute")]
    NoAttribute,
    /// The attribute names kinds of values, and the step's value is of none of them.
    #[error("the attribute takes no value of this kind")]
    BadValue,
    /// The document would do, but the schema does not know the step: its mark, or a node that is open at the start of its slice,
    /// has a type, attributes or marks that are none of the schema, so that the step could not be written and read back.
    #[error("the step's mark or an open node of its slice is not of the schema")]
    NotInSchema,
}
