//! The links and goals of a search for types to put before given ones.
ghost use Rattle.std.specs.Prelude.{◌≡◌, IfOk};
ghost use Rattle.pm_auto.specs.Fills.{kept, makeable, fits_on, filled};

use crate::auto::{Auto, Edge, State};
use crate::edges::{links_of, may_end_at, target_of};
use crate::expr::TypeId;
use crate::search::is_marked;
use crate::states::States;
use pm_list::Listed;
use std::alloc::{AllocError, Global};

/// The edges whose type can be made.
fn keep(alloc: Global, can: &[bool], edges: &[Edge]) -> Result<Listed<Edge>, AllocError>
    ensures { IfOk result (λ l. l ≡ kept can.now edges.now) }
{
    let mut list = Listed::new(alloc);
    for edge in edges {
        if is_marked(can, edge.kind) {
            list.push(*edge)?;
        }
    }
    Ok(list)
}

/// The same of each state.
pub fn keep_all(
    alloc: Global,
    can: &[bool],
    edges: &[Listed<Edge>],
) -> Result<Listed<Listed<Edge>>, AllocError>
    ensures { IfOk result (λ l. l ≡ makeable can.now edges.now) }
{
    let mut list: Listed<Listed<Edge>> = Listed::new(alloc);
    for row in edges {
        let some = keep(alloc, can, row.as_slice())?;
        list.push(some)?;
    }
    Ok(list)
}

/// Whether these types fit from the state on, and after them the content may end where that is asked.
fn fits(sets: &States, edges: &[Listed<Edge>], state: State, after: &[TypeId], to_end: bool) -> bool
    ensures { result ≡ fits_on sets.now edges.now to_end state after.now }
{
    let mut now = state;
    for kind in after {
        match target_of(links_of(edges, now), *kind) {
            Some(to) => now = to,
            None => return false,
        }
    }
    !to_end || may_end_at(sets, now)
}

/// The same of each state.
pub fn ends_of(
    alloc: Global,
    auto: &Auto,
    after: &[TypeId],
    to_end: bool,
) -> Result<Listed<bool>, AllocError>
    ensures { IfOk result (λ l. l ≡ filled auto.now to_end after.now) }
{
    let edges = auto.edges.as_slice();
    let mut list = Listed::new(alloc);
    for (state, _ends) in auto.sets.ends().iter().enumerate() {
        list.push(fits(&auto.sets, edges, state, after, to_end))?;
    }
    Ok(list)
}
