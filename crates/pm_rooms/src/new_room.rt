//! A room that is to be opened.
use pm_change::Change;
use pm_session::Line;

/// A room with what its people do in it.
#[derive(Drop)]
pub struct NewRoom<C: Change, O>
where
    C::Rules: Drop,
{
    pub rules: C::Rules,
    /// The first document.
    pub doc: C::Doc,
    /// Of each client whether it is a raw one.
    pub raw: Vec<bool>,
    /// Of each client the number of the person who plays it, from 0.
    pub people: Vec<u32>,
    /// The room's lines, in order. Their numbers say how they stand among the lines of other rooms.
    pub lines: Vec<Line<O, C>>,
}
