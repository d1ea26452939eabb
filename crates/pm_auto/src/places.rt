//! The places of an expression, and how they follow one another.
ghost use Rattle.std.specs.Prelude.{◌≡◌, ◌∷◌, [], map, true, false, IfOk};
ghost use Rattle.pm_auto.specs.Alike.{Alike, Alike_row, Alike_rows};
ghost use Rattle.pm_auto.specs.Table.{again, onward, one_or, one_then, both_parts, passes, repeated};

use crate::expr::TypeId;
use crate::numbers::NumberSet;
use pm_list::Listed;
use std::alloc::{AllocError, Global};

/// A place: an occurrence of a type in the expansion, with the numbers of the places that may come next, and whether the
/// content may end after it.
#[derive(Drop, Debug)]
pub struct Row {
    pub kind: TypeId,
    pub follow: NumberSet,
    pub ends: bool,
}

/// The places of a part of the expansion, the numbers of those that may come first, and whether the part may be empty.
#[derive(Drop, Debug)]
pub struct Part {
    pub rows: Listed<Row>,
    pub first: Listed<usize>,
    pub may_be_empty: bool,
}

/// A part without places.
pub(crate) fn no_places(alloc: Global, may_be_empty: bool) -> Part
    ensures { result ≡ record { rows = []; first = []; may_be_empty = may_be_empty } }
{
    Part {
        rows: Listed::new(alloc),
        first: Listed::new(alloc),
        may_be_empty,
    }
}

/// The part with the one place of this number and type.
pub(crate) fn one_place(alloc: Global, number: usize, kind: TypeId) -> Result<Part, AllocError>
    ensures { IfOk result (λ p. p ≡ record { rows = record { kind = kind; follow = []; ends = true } ∷ []; first = number ∷ []; may_be_empty = false }) }
{
    let mut rows = Listed::new(alloc);
    rows.push(Row {
        kind,
        follow: NumberSet::new(alloc),
        ends: true,
    })?;
    let mut first = Listed::new(alloc);
    first.push(number)?;
    Ok(Part {
        rows,
        first,
        may_be_empty: false,
    })
}

/// One part or the other.
pub(crate) fn either(a: Part, b: Part) -> Result<Part, AllocError>
    ensures { IfOk result (λ p. p ≡ one_or a b) }
{
    let Part {
        mut rows,
        mut first,
        may_be_empty,
    } = a;
    let ends = may_be_empty || b.may_be_empty;
    // The first of several parts is taken as it is, so that brackets within brackets cost no more than their items.
    if rows.is_empty() && first.is_empty() {
        return Ok(Part {
            rows: b.rows,
            first: b.first,
            may_be_empty: ends,
        });
    }
    rows.append(b.rows)?;
    first.append(b.first)?;
    Ok(Part {
        rows,
        first,
        may_be_empty: ends,
    })
}

/// One part and then the other. Where no list leads through one of them, none leads through the whole, and it has no places.
pub(crate) fn then(alloc: Global, a: Part, b: Part) -> Result<Part, AllocError>
    ensures { IfOk result (λ p. Alike p (one_then a b)) }
{
    if has_list(&a) && has_list(&b) {
        both(alloc, a, b)
    } else {
        Ok(no_places(alloc, false))
    }
}

/// Whether a list leads through the part.
fn has_list(part: &Part) -> bool
    ensures { result ≡ passes part.now }
{
    part.may_be_empty || !part.first.is_empty()
}

/// One part and then the other, where lists lead through both.
fn both(alloc: Global, a: Part, b: Part) -> Result<Part, AllocError>
    ensures { IfOk result (λ p. Alike p (both_parts a b)) }
{
    let Part {
        rows,
        mut first,
        may_be_empty,
    } = a;
    let Part {
        rows: others,
        first: next,
        may_be_empty: may_end,
    } = b;
    let mut rows = go_on(alloc, rows, next.as_slice(), may_end)?;
    rows.append(others)?;
    if may_be_empty {
        first.append(next)?;
    }
    Ok(Part {
        rows,
        first,
        may_be_empty: may_be_empty && may_end,
    })
}

/// The part once or more often. The places that may come first are made a set once, so that a repetition of what is repeated
/// already adds nothing to what its places hold.
pub(crate) fn repeat(alloc: Global, a: Part) -> Result<Part, AllocError>
    ensures { IfOk result (λ p. Alike p (repeated a)) }
{
    let Part {
        rows,
        first,
        may_be_empty,
    } = a;
    let start = NumberSet::of(alloc, first.as_slice())?;
    let rows = begin_again(alloc, rows, &start)?;
    Ok(Part {
        rows,
        first,
        may_be_empty,
    })
}

/// Each place that may be the last goes on with these places; it stays one that may be the last where `ends` says so.
fn go_on(
    alloc: Global,
    rows: Listed<Row>,
    first: &[usize],
    ends: bool,
) -> Result<Listed<Row>, AllocError>
    ensures { IfOk result (λ rs. Alike_rows rs (map (onward first.now ends) rows)) }
{
    let mut all = Listed::new(alloc);
    for row in rows.into_vec() {
        all.push(go_on_from(row, first, ends)?)?;
    }
    Ok(all)
}

/// The same for one place.
fn go_on_from(row: Row, first: &[usize], ends: bool) -> Result<Row, AllocError>
    ensures { IfOk result (λ r. Alike_row r (onward first.now ends row)) }
{
    let Row {
        kind,
        mut follow,
        ends: may_end,
    } = row;
    if may_end {
        follow.put_all(first)?;
    }
    Ok(Row {
        kind,
        follow,
        ends: may_end && ends,
    })
}

/// Each place that may be the last goes on with these places, and stays one that may be the last.
fn begin_again(
    alloc: Global,
    rows: Listed<Row>,
    first: &NumberSet,
) -> Result<Listed<Row>, AllocError>
    ensures { IfOk result (λ rs. Alike_rows rs (map (again first.now) rows)) }
{
    let mut all = Listed::new(alloc);
    for row in rows.into_vec() {
        all.push(begin_again_from(row, first)?)?;
    }
    Ok(all)
}

/// The same for one place.
fn begin_again_from(row: Row, first: &NumberSet) -> Result<Row, AllocError>
    ensures { IfOk result (λ r. Alike_row r (again first.now row)) }
{
    let Row {
        kind,
        mut follow,
        ends,
    } = row;
    if ends {
        follow.join(first)?;
    }
    Ok(Row { kind, follow, ends })
}
