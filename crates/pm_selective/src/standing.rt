//! Whether an event of a history lies apart in the timeline for which the history stands.
ghost use Rattle.std.specs.Prelude.{◌≡◌, ◌↔◌, true, Contains, IfOk};
ghost use Rattle.pm_selective.specs.Histories.{IsApartIn};
ghost use Rattle.pm_selective.specs.Standing.{HasTimeline, IsCount};

use crate::telling::tells_apart;
use pm_apply::DocChange;
use pm_history::{Branches, Event};
use std::alloc::{AllocError, Global};

/// Whether the event lies apart: its steps stand in the timeline one after another, and there is at least one; each of them and
/// each later step is a replace or a replaceAround whose gap is not pinched; and each later step has at least one token between
/// its ranges and the event's. This reads the maps that the history keeps, and nothing else.
///
/// The history must stand for a timeline whose steps apply one after another to a valid document, and the event must be one of
/// those that can be undone.
pub fn apart(
    alloc: Global,
    history: &Branches<DocChange>,
    event: &Event,
) -> Result<bool, AllocError>
    requires stands { HasTimeline history.now }
    requires event { Contains history.now.undo event.now }
    ensures { IfOk result (λ told. (t : HasTimeline history.now) → (told ≡ true) ↔ IsApartIn event.now.names t.steps) }
{
    tells_apart(alloc, event.names.as_slice(), history.items())
}

/// How many steps the last event of this number has, where it lies apart; else none.
pub fn count_apart(
    alloc: Global,
    history: &Branches<DocChange>,
    number: u32,
) -> Result<Option<u64>, AllocError>
    requires { HasTimeline history.now }
    ensures { IfOk result (IsCount history.now number) }
{
    let Some(event) = history.event_numbered(number) else {
        return Ok(None);
    };
    if apart(alloc, history, event)? {
        Ok(Some(event.names.len() as u64))
    } else {
        Ok(None)
    }
}
