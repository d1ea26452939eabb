//! The places of a state by their types.
ghost use Rattle.std.specs.Prelude.{◌≡◌, ◌∷◌, [], ◌++◌, ◌<◌, length, replicate, set, slice_index_or, IfOk, OnOk};
ghost use Rattle.pm_auto.specs.States.{Below};
ghost use Rattle.pm_auto.specs.Groups.{place_of, Are_twins, Are_groups};

use crate::expr::TypeId;
use crate::places::Row;
use pm_list::Listed;
use std::alloc::{AllocError, Global};

/// The places of a state by their types: the first place of each type, in order, and at the number of the first place of the
/// whole table that has the type a list of the state's places of the type.
#[derive(Drop)]
pub(crate) struct Groups {
    pub heads: Listed<usize>,
    pub lists: Listed<Listed<usize>>,
}

/// The number of the first place of the type; the number of all places where none has it.
fn first_of(rows: &[Row], kind: TypeId) -> usize
    ensures { result ≡ place_of kind rows.now }
{
    for (number, row) in rows.iter().enumerate() {
        if row.kind == kind {
            return number;
        }
    }
    rows.len()
}

/// For each place the first place that has its type.
pub(crate) fn twins(alloc: Global, rows: &[Row]) -> Result<Listed<usize>, AllocError>
    ensures { IfOk result (λ t. Are_twins rows.now t) }
{
    let mut list = Listed::new(alloc);
    for row in rows {
        list.push(first_of(rows, row.kind))?;
    }
    Ok(list)
}

/// So many lists, each empty.
fn empty_lists(alloc: Global, count: usize) -> Result<Vec<Listed<usize>>, AllocError>
    ensures { IfOk result (λ v. v.items ≡ replicate count []) }
{
    let mut lists = Vec::with_capacity(alloc, count)?;
    for _i in 0..count {
        lists.push(Listed::new(alloc))?;
    }
    Ok(lists)
}

/// Puts the place at the end of the list.
fn put(lists: &mut Vec<Listed<usize>>, list: usize, place: usize) -> Result<(), AllocError>
    requires { list < length lists.old.items }
    ensures { OnOk result (lists.new.items ≡ set lists.old.items list (slice_index_or lists.old.items list [] ++ place ∷ [])) }
{
    lists[list].push(place)
}

/// The list of this number; an empty one where there is none.
pub(crate) fn list_at(lists: &[Listed<usize>], number: usize) -> &[usize]
    ensures { result.now ≡ slice_index_or lists.now number [] }
{
    if number < lists.len() {
        lists[number].as_slice()
    } else {
        &[]
    }
}

/// The places by their types. Each place is looked at once.
pub(crate) fn group(
    alloc: Global,
    rows: &[Row],
    twins: &[usize],
    places: &[usize],
) -> Result<Groups, AllocError>
    requires twins { Are_twins rows.now twins.now }
    requires places { Below (length rows.now) places.now }
    ensures { IfOk result (λ g. Are_groups rows.now places.now g) }
{
    let mut heads = Listed::new(alloc);
    let mut lists = empty_lists(alloc, rows.len())?;
    for place in places {
        let twin = twins[*place];
        if lists[twin].is_empty() {
            heads.push(*place)?;
        }
        put(&mut lists, twin, *place)?;
    }
    Ok(Groups {
        heads,
        lists: Listed::from_vec(lists),
    })
}
