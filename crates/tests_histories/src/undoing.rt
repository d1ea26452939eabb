//! Steps of a sheet that are undone where they stand now, through the bound of a change.
ghost use Rattle.std.specs.Prelude.{◌≡◌, ◌⊎◌, ◌∷◌, [], List, ℕ, Ok, IfOk};
ghost use Rattle.pm_history.specs.Shows.{ShowsTo};
ghost use Rattle.pm_sheet.specs.Edits.{meaning, is_good};

use pm_change::{Change, Failed, Name};
use pm_history::{Item, undo_event};
use pm_list::Listed;
use pm_sheet::{Edit, Rules};
use std::alloc::{AllocError, Global};

/// A sheet, and the items of the steps that led to it.
#[derive(Drop)]
struct Played {
    doc: Listed<u8>,
    items: Listed<Item<Edit>>,
}

/// An edit: with the serial of its name where it is an own one, and with the serial of the step that it undoes.
#[derive(Clone, Copy, Drop)]
struct Line {
    edit: Edit,
    own: Option<u64>,
    undoes: Option<u64>,
}

pub(crate) fn named(serial: u64) -> Name {
    Name { client: 1, serial }
}

/// The sheet of these numbers, where it may be so long.
fn start(alloc: Global, rules: &Rules, numbers: &[u8]) -> Result<Played, AllocError>
    ensures { IfOk result (λ p. ShowsTo meaning rules.now p.items p.doc) }
{
    let length = numbers.len() as u64;
    if rules.limit < length || 4_294_967_296 <= length {
        return Err(AllocError);
    }
    Ok(Played {
        doc: Listed::from_vec(Vec::from_slice(alloc, numbers)?),
        items: Listed::new(alloc),
    })
}

/// The item of an edit that was made on this sheet.
fn item_of(
    alloc: Global,
    rules: &Rules,
    doc: &Listed<u8>,
    line: Line,
) -> Result<Item<Edit>, AllocError>
    requires good { is_good rules.now doc.now }
    requires applies { ((next : List ℕ) × (meaning.outcome rules.now line.edit doc.now ≡ Ok next)) }
    ensures map { IfOk result (λ i. i.map ≡ meaning.step_map line.edit) }
    ensures inverse { IfOk result (λ i. (i.inverse ≡ meaning.inverse rules.now line.edit doc.now) ⊎ (i.inverse ≡ [])) }
{
    let map = line.edit.step_map();
    let Some(serial) = line.own else {
        return Item::foreign(alloc, map);
    };
    let inverse = Listed::from_vec(line.edit.inverse(alloc, rules, doc)?);
    Item::own(alloc, named(serial), map, inverse, line.undoes.map(named))
}

/// One edit more. An edit that does not apply is an error.
fn step(alloc: Global, rules: &Rules, played: Played, line: Line) -> Result<Played, AllocError>
    requires { ShowsTo meaning rules.now played.items played.doc }
    ensures { IfOk result (λ p. ShowsTo meaning rules.now p.items p.doc) }
{
    let Played { doc, mut items } = played;
    let next = match line.edit.apply(alloc, rules, &doc) {
        Ok(next) => next,
        Err(Failed::Reason(_)) => return Err(AllocError),
        Err(Failed::NoMemory) => return Err(AllocError),
    };
    let item = item_of(alloc, rules, &doc, line)?;
    items.push(item)?;
    Ok(Played { doc: next, items })
}

fn play(alloc: Global, rules: &Rules, numbers: &[u8], lines: &[Line]) -> Result<Played, AllocError>
    ensures { IfOk result (λ p. ShowsTo meaning rules.now p.items p.doc) }
{
    let mut played = start(alloc, rules, numbers)?;
    for line in lines {
        played = step(alloc, rules, played, *line)?;
    }
    Ok(played)
}

pub(crate) fn names_of(alloc: Global, serials: &[u64]) -> Result<Listed<Name>, AllocError> {
    let mut names = Listed::new(alloc);
    for serial in serials {
        names.push(named(*serial))?;
    }
    Ok(names)
}

/// How long a sheet may be, the numbers at first, edits, the serials of the steps that are undone then, and the numbers that are
/// left by so many steps.
struct Row {
    limit: u64,
    numbers: &'static [u8],
    lines: &'static [Line],
    serials: &'static [u64],
    left: &'static [u8],
    made: usize,
}

/// Whether undoing the steps leads to what the row wants.
fn leaves(alloc: Global, row: &Row) -> Result<bool, AllocError> {
    let rules = Rules { limit: row.limit };
    let Played { doc, items } = play(alloc, &rules, row.numbers, row.lines)?;
    let names = names_of(alloc, row.serials)?;
    let undone = undo_event(
        alloc,
        &rules,
        1,
        names.as_slice(),
        items.as_slice(),
        doc,
        100,
    )?;
    Ok(undone.doc.as_slice() == row.left && undone.made.len() == row.made)
}

/// The first number is taken out, and 8 put in.
const TWO: [Line; 2] = [
    Line {
        edit: Edit::Delete { at: 0 },
        own: Some(1),
        undoes: None,
    },
    Line {
        edit: Edit::Insert { at: 1, value: 8 },
        own: Some(2),
        undoes: None,
    },
];

/// 9 is put in, and then a foreign 7 at the front.
const FRONT: [Line; 2] = [
    Line {
        edit: Edit::Insert { at: 1, value: 9 },
        own: Some(1),
        undoes: None,
    },
    Line {
        edit: Edit::Insert { at: 0, value: 7 },
        own: None,
        undoes: None,
    },
];

/// 9 is put in, and another takes it out.
const GONE: [Line; 2] = [
    Line {
        edit: Edit::Insert { at: 1, value: 9 },
        own: Some(1),
        undoes: None,
    },
    Line {
        edit: Edit::Delete { at: 1 },
        own: None,
        undoes: None,
    },
];

/// The first number is taken out, and another fills the sheet.
const FULL: [Line; 2] = [
    Line {
        edit: Edit::Delete { at: 0 },
        own: Some(1),
        undoes: None,
    },
    Line {
        edit: Edit::Insert { at: 0, value: 7 },
        own: None,
        undoes: None,
    },
];

/// 9 is put in, taken out, and comes back.
const BACK: [Line; 3] = [
    Line {
        edit: Edit::Insert { at: 0, value: 9 },
        own: Some(1),
        undoes: None,
    },
    Line {
        edit: Edit::Delete { at: 0 },
        own: Some(2),
        undoes: None,
    },
    Line {
        edit: Edit::Insert { at: 0, value: 9 },
        own: Some(3),
        undoes: Some(2),
    },
];

const ROWS: [Row; 7] = [
    // The first of two edits, and both.
    Row {
        limit: 9,
        numbers: &[5, 6],
        lines: &TWO,
        serials: &[1],
        left: &[5, 6, 8],
        made: 1,
    },
    Row {
        limit: 9,
        numbers: &[5, 6],
        lines: &TWO,
        serials: &[1, 2],
        left: &[5, 6],
        made: 2,
    },
    // A foreign number came at the front.
    Row {
        limit: 9,
        numbers: &[1, 2],
        lines: &FRONT,
        serials: &[1],
        left: &[7, 1, 2],
        made: 1,
    },
    // The number put in is gone already.
    Row {
        limit: 9,
        numbers: &[1, 2],
        lines: &GONE,
        serials: &[1],
        left: &[1, 2],
        made: 0,
    },
    // The sheet is full.
    Row {
        limit: 2,
        numbers: &[1, 2],
        lines: &FULL,
        serials: &[1],
        left: &[7, 2],
        made: 0,
    },
    // The step does not stand in the timeline.
    Row {
        limit: 2,
        numbers: &[1, 2],
        lines: &FULL,
        serials: &[7],
        left: &[7, 2],
        made: 0,
    },
    // A number that came back is the same.
    Row {
        limit: 9,
        numbers: &[1],
        lines: &BACK,
        serials: &[1],
        left: &[1],
        made: 1,
    },
];

#[test]
fn steps_are_undone_where_they_stand_now(rt: HostRuntime) -> Result<(), AllocError> {
    for (number, row) in ROWS.iter().enumerate() {
        assert!(rt; leaves(rt.alloc(), row)?, "row {number}");
    }
    Ok(())
}
