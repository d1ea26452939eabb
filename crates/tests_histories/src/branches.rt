//! Histories: their events, and which items they keep.
use crate::undoing::{named, names_of};
use pm_change::Name;
use pm_history::{Branches, Event, Item, MadeBy, Turn};
use pm_list::Listed;
use pm_map::{Span, StepMap};
use std::alloc::{AllocError, Global};

/// What becomes of a history.
#[derive(Clone, Copy)]
enum Act {
    /// An own step with this serial, which undoes the step of that one, made by this call.
    Own(u64, Option<u64>, MadeBy),
    /// A foreign step.
    Foreign,
    /// An event is taken off.
    Pop(Turn),
    /// The event of this number is taken off.
    PopNumbered(u32),
    /// In place of the last two steps stand a foreign one and the step 5.
    Rebase,
    /// The last event to undo is undone, by the step 6, which undoes the step 5.
    Undo,
}

/// The map of a step that takes the tokens at 5 and 6 out, or of one that puts them in.
fn map_of(takes_out: bool) -> StepMap {
    let span = Span {
        start: 5,
        old_size: if takes_out { 2 } else { 0 },
        new_size: if takes_out { 0 } else { 2 },
    };
    StepMap::new(Some(span), None, false)
}

/// The item of a step that takes two tokens out, or of one that undoes such a step.
fn item(alloc: Global, serial: u64, undoes: Option<u64>) -> Result<Item<u8>, AllocError> {
    let inverse = Listed::from_vec(vec![in alloc; 10, 20]?);
    let map = map_of(undoes.is_none());
    Item::own(alloc, named(serial), map, inverse, undoes.map(named))
}

fn rebase(alloc: Global, history: &mut Branches<u8>) -> Result<(), AllocError> {
    let kept = vec![in alloc; item(alloc, 5, None)?]?;
    let maps = vec![in alloc; StepMap::new(None, None, false)]?;
    history.rebased(alloc, 2, maps, kept)
}

fn undo(alloc: Global, history: &mut Branches<u8>) -> Result<(), AllocError> {
    let items = Listed::from_vec(vec![in alloc; item(alloc, 6, Some(5))?]?);
    let made = Event {
        number: Some(3),
        names: names_of(alloc, &[6])?,
    };
    history.undone(Turn::Undo, made, items)
}

/// Makes one of the acts.
fn make_act(alloc: Global, history: &mut Branches<u8>, act: Act) -> Result<(), AllocError> {
    match act {
        Act::Own(serial, undoes, made_by) => {
            history.note_own(alloc, item(alloc, serial, undoes)?, made_by)
        }
        Act::Foreign => history.note(alloc, StepMap::new(None, None, false)),
        Act::Pop(turn) => {
            let _ = history.pop(turn);
            Ok(())
        }
        Act::PopNumbered(number) => {
            let _ = history.pop_event(number);
            Ok(())
        }
        Act::Rebase => rebase(alloc, history),
        Act::Undo => undo(alloc, history),
    }
}

/// The history after both lists of acts.
fn history_of(alloc: Global, first: &[Act], then: &[Act]) -> Result<Branches<u8>, AllocError> {
    let mut history = Branches::new(alloc);
    for one in first.iter().chain(then) {
        make_act(alloc, &mut history, *one)?;
    }
    Ok(history)
}

/// Writes the serials of each event's names, and a semicolon after each event.
fn push_events(text: &mut String, events: &[Event]) -> Result<(), AllocError> {
    for event in events {
        push_serials(text, event.names.as_slice())?;
        text.push(';')?;
    }
    Ok(())
}

fn push_serials(text: &mut String, names: &[Name]) -> Result<(), AllocError> {
    for name in names {
        write!(text, " {}", name.serial)?;
    }
    Ok(())
}

/// Writes the serial of each item's name, or `-` where it has none.
fn push_items(text: &mut String, items: &[Item<u8>]) -> Result<(), AllocError> {
    for item in items {
        match item.name() {
            Some(name) => write!(text, " {}", name.serial)?,
            None => text.push_str(" -")?,
        }
    }
    Ok(())
}

/// The events to undo, those to redo, the items, and how many of them have the changes that undo them.
fn told(alloc: Global, history: &Branches<u8>) -> Result<String, AllocError> {
    let mut text = String::new(alloc);
    push_events(&mut text, history.undo_events())?;
    text.push_str(" |")?;
    push_events(&mut text, history.redo_events())?;
    text.push_str(" |")?;
    push_items(&mut text, history.items())?;
    write!(text, " | {}", history.held().inverses)?;
    Ok(text)
}

/// An edit of the event that is open, if it has this number.
const OF_FOUR: MadeBy = MadeBy::Edit {
    event: Some(4),
    first: true,
};

const OF_SEVEN: MadeBy = MadeBy::Edit {
    event: Some(7),
    first: true,
};

/// A further step of the edit before it.
const MORE: MadeBy = MadeBy::Edit {
    event: Some(4),
    first: false,
};

const ALONE: MadeBy = MadeBy::Edit {
    event: None,
    first: true,
};

const AN_UNDO: MadeBy = MadeBy::Undo {
    event: None,
    first: true,
};

/// Two steps of one call, one that joins them by its number, and two without a number.
const FIVE: [Act; 5] = [
    Act::Own(1, None, OF_FOUR),
    Act::Own(2, None, MORE),
    Act::Own(3, None, OF_FOUR),
    Act::Own(4, None, ALONE),
    Act::Own(5, None, ALONE),
];

/// Two events of one number, with another between them, and one without a number.
const FOUR: [Act; 4] = [
    Act::Own(1, None, OF_FOUR),
    Act::Own(2, None, OF_SEVEN),
    Act::Own(3, None, OF_FOUR),
    Act::Own(4, None, ALONE),
];

const FOREIGN: [Act; 3] = [Act::Foreign, Act::Foreign, Act::Foreign];

const UNDONE: [Act; 2] = [Act::Pop(Turn::Undo), Act::Own(6, Some(5), AN_UNDO)];

/// What becomes of a history at first and then, and what is told of it.
const TOLD: [(&[Act], &[Act], &str); 12] = [
    (
        &[],
        &[Act::Pop(Turn::Undo), Act::Pop(Turn::Redo)],
        " | | | 0",
    ),
    // Edits join by number.
    (&FIVE, &[], " 1 2 3; 4; 5; | | 1 2 3 4 5 | 5"),
    // An undo closes the event, and an edit empties the redo branch.
    (&FIVE, &UNDONE, " 1 2 3; 4; | 6; | 1 2 3 4 5 6 | 6"),
    (
        &FIVE,
        &[
            Act::Pop(Turn::Undo),
            Act::Own(6, Some(5), AN_UNDO),
            Act::Foreign,
            Act::Own(7, None, OF_FOUR),
        ],
        " 1 2 3; 4; 7; | | 1 2 3 4 5 6 - 7 | 5",
    ),
    // An event is taken by its number, the last one that has it.
    (
        &FOUR,
        &[Act::PopNumbered(9)],
        " 1; 2; 3; 4; | | 1 2 3 4 | 4",
    ),
    (&FOUR, &[Act::PopNumbered(4)], " 1; 2; 4; | | 1 2 3 4 | 4"),
    // A dropped step leaves its event.
    (&FIVE, &[Act::Rebase], " 1 2 3;; 5; | | 1 2 3 - 5 | 4"),
    // What was undone can be redone.
    (&FIVE, &[Act::Undo], " 1 2 3; 4; | 6; | 1 2 3 4 5 6 | 6"),
    // A history holds what is live.
    (&FOREIGN, &[], " | | | 0"),
    (&FOREIGN, &[Act::Own(1, None, ALONE)], " 1; | | 1 | 1"),
    (
        &FOREIGN,
        &[
            Act::Own(1, None, ALONE),
            Act::Pop(Turn::Undo),
            Act::Own(2, Some(1), AN_UNDO),
        ],
        " | 2; | 1 2 | 2",
    ),
    (
        &FOREIGN,
        &[
            Act::Own(1, None, ALONE),
            Act::Pop(Turn::Undo),
            Act::Own(2, Some(1), AN_UNDO),
            Act::Own(3, None, ALONE),
        ],
        " 3; | | 3 | 1",
    ),
];

/// Whether this is told of the history.
fn is_told(alloc: Global, first: &[Act], then: &[Act], want: &str) -> Result<bool, AllocError> {
    let history = history_of(alloc, first, then)?;
    Ok(told(alloc, &history)?.as_str() == want)
}

#[test]
fn a_history_keeps_events_and_what_is_live(rt: HostRuntime) -> Result<(), AllocError> {
    for (first, then, want) in &TOLD {
        assert!(rt; is_told(rt.alloc(), first, then, want)?, "{want}");
    }
    Ok(())
}

/// Whether maps after the step of this serial are there, and its changes are those of an item.
fn is_found(alloc: Global, history: &Branches<u8>, serial: u64) -> Result<bool, AllocError> {
    let later = history.later(alloc, named(serial))?;
    Ok(later.is_some() && history.inverse(named(serial)) == Some([10, 20].as_slice()))
}

/// Whether the last of four steps is found and a fifth is not, and an event by its number alone.
fn are_found(alloc: Global, history: &Branches<u8>) -> Result<bool, AllocError> {
    let there = is_found(alloc, history, 4)?;
    let gone = is_found(alloc, history, 5)?;
    let numbered = history.event_numbered(4).is_some();
    Ok(there && !gone && numbered && history.event_numbered(9).is_none())
}

#[test]
fn steps_and_events_are_found(rt: HostRuntime) -> Result<(), AllocError> {
    let history = history_of(rt.alloc(), &FOUR, &[])?;
    assert!(rt; are_found(rt.alloc(), &history)?);
    Ok(())
}
