//! Laws of events. Each call does nothing; its contract is the law.
ghost use Rattle.std.specs.Prelude.{◌≡◌, ℕ, ◌++◌, List, Some};
ghost use Rattle.pm_history.specs.declared.item.Item.{Item};
ghost use Rattle.pm_change.specs.Changes.{fold};
ghost use Rattle.pm_map.specs.declared.step_map.Span.{Span};
ghost use Rattle.pm_history.specs.EventLaws.{EditsEvents, MovesEvents, RebasesEvents};
ghost use Rattle.pm_history.specs.Remembers.{live_names};
ghost use Rattle.pm_history.specs.Standing.{IsHistoryOf};
ghost use Rattle.pm_history.specs.Timelines.{Step, changes_of};
ghost use Rattle.pm_history.specs.Trims.{trimmed, IsTrimmed, inverses, live_count};

use crate::branches::Branches;
use pm_change::Change;

/// The steps of an edit join the last event where that is open and has the edit's number; else they are one event more. The
/// last event is open then, and nothing can be redone.
pub fn edits_events<C: Change>(history: &Branches<C>)
    ensures { EditsEvents history.now }
{
    let _ = history;
}

/// An undo takes the last event from the branch, and where it makes steps these are an event of the other branch, with the same
/// number. No event is open then. A redo does the same with the branches exchanged.
pub fn moves_events<C: Change>(history: &Branches<C>)
    ensures { (items : List (Item C)) → MovesEvents history.now items }
{
    let _ = history;
}

/// A rebase leaves the last event open where it was, and no event open where none was. Each event keeps its place and its number.
/// A step that was dropped, one of the last that was not kept, leaves its event; every other step stays.
pub fn rebased_events<C: Change>(history: &Branches<C>)
    ensures { (front gone kept : List (Item C)) (foreign : List (List Span)) → history.now.items ≡ front ++ gone
        → RebasesEvents history.now front gone foreign kept }
{
    let _ = history;
}

/// A trimmed history still stands for the timeline for which it stood, so that each undo over its items is still the undo over
/// all steps of that timeline. Nothing is left to trim then, and the inverses kept are those of the live steps.
pub fn trimming_keeps<C: Change>(rules: &C::Rules, history: &Branches<C>)
    ensures stands { (client drawn : ℕ) (first doc : C.Doc) (steps : List (Step C)) → fold C.means rules.now first (changes_of steps) ≡ Some doc
        → IsHistoryOf C.means rules.now client drawn first steps history.now → IsHistoryOf C.means rules.now client drawn first steps (trimmed history.now) }
    ensures trimmed { IsTrimmed (trimmed history.now) }
    ensures inverses { inverses (live_names history.now) (trimmed history.now).items ≡ live_count (live_names history.now) (trimmed history.now).items }
{
    let _ = rules;
    let _ = history;
}
