//! Which event is taken.

/// `Undo` takes the last event to undo, and what is made is an event to redo. `Redo` is the same with the two exchanged.
/// `UndoEvent` takes the last event to undo that has this number, and is otherwise as `Undo`.
#[derive(Clone, Copy, Drop, Debug)]
pub enum Turn {
    Undo,
    Redo,
    UndoEvent { number: u32 },
}
