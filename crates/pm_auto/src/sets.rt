//! Sets of places.
ghost use Rattle.std.specs.Prelude.{◌≡◌, ◌<◌, ◌*◌, IfOk, length};
ghost use Rattle.pm_auto.specs.Runs.{next_rows, end_rows};
ghost use Rattle.pm_auto.specs.States.{in_order as ordered, Below};
ghost use Rattle.pm_auto.specs.Bits.{picked, as_set, Holds};

use crate::bits::{bits_of, is_set, join, no_bits};
use crate::expr::TypeId;
use crate::places::Row;
use pm_list::Listed;
use std::alloc::{AllocError, Global};

/// A state as a set: the numbers of the places that may come next, ascending, and whether the content may end.
#[derive(Drop, Debug)]
pub struct PlaceSet {
    pub places: Listed<usize>,
    pub ends: bool,
}

/// A state as bits: the set of the places that may come next, and whether the content may end.
#[derive(Drop)]
pub(crate) struct BitSet {
    pub words: Listed<u64>,
    pub ends: bool,
}

/// How many numbers are in the set.
fn count(words: &[u64]) -> usize {
    let mut count: usize = 0;
    for word in words {
        count = count.saturating_add(word.count_ones() as usize);
    }
    count
}

/// The places of the set, ascending. They are counted first, so that the list takes memory once.
fn choose(alloc: Global, rows: &[Row], words: &[u64]) -> Result<Listed<usize>, AllocError>
    requires { length rows.now < 64 * length words.now }
    ensures { IfOk result (λ l. l ≡ picked words.now 0 rows.now) }
{
    let mut list = Listed::from_vec(Vec::with_capacity(alloc, count(words))?);
    for (number, _row) in rows.iter().enumerate() {
        if is_set(words, number) {
            list.push(number)?;
        }
    }
    Ok(list)
}

/// The numbers of the list that the rows have, each once, ascending.
pub(crate) fn in_order(
    alloc: Global,
    rows: &[Row],
    numbers: &[usize],
) -> Result<Listed<usize>, AllocError>
    ensures { IfOk result (λ l. l ≡ ordered numbers.now 0 rows.now) }
{
    let words = bits_of(alloc, rows.len(), numbers)?;
    choose(alloc, rows, words.as_slice())
}

/// The set of the places that may come after those of the type.
fn followers(
    alloc: Global,
    rows: &[Row],
    places: &[usize],
    kind: TypeId,
) -> Result<Vec<u64>, AllocError>
    requires { Below (length rows.now) places.now }
    ensures { IfOk result (λ v. Holds (length rows.now) v.items (next_rows rows.now kind places.now)) }
{
    let mut words = no_bits(alloc, rows.len() / 64 + 1)?;
    for place in places {
        let row = &rows[*place];
        if row.kind == kind {
            join(&mut words, row.follow.as_bits());
        }
    }
    Ok(words)
}

/// Whether one of the places of the type may be the last.
fn may_end(rows: &[Row], places: &[usize], kind: TypeId) -> bool
    requires { Below (length rows.now) places.now }
    ensures { result ≡ end_rows rows.now kind places.now }
{
    for place in places {
        let row = &rows[*place];
        if row.kind == kind && row.ends {
            return true;
        }
    }
    false
}

/// The state after a type, where these are the places of the type.
pub(crate) fn after(
    alloc: Global,
    rows: &[Row],
    places: &[usize],
    kind: TypeId,
) -> Result<BitSet, AllocError>
    requires { Below (length rows.now) places.now }
    ensures room { IfOk result (λ b. length rows.now < 64 * length b.words) }
    ensures is { IfOk result (λ b. as_set rows.now b ≡ record { places = ordered (next_rows rows.now kind places.now) 0 rows.now; ends = end_rows rows.now kind places.now }) }
{
    let words = followers(alloc, rows, places, kind)?;
    Ok(BitSet {
        words: Listed::from_vec(words),
        ends: may_end(rows, places, kind),
    })
}

/// The state with its places as a list.
pub(crate) fn as_list(alloc: Global, rows: &[Row], set: &BitSet) -> Result<PlaceSet, AllocError>
    requires { length rows.now < 64 * length set.now.words }
    ensures { IfOk result (λ s. s ≡ as_set rows.now set.now) }
{
    Ok(PlaceSet {
        places: choose(alloc, rows, set.words.as_slice())?,
        ends: set.ends,
    })
}
