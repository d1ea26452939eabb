//! The links and goals of a search for wrappers.
ghost use Rattle.std.specs.Prelude.{◌≡◌, map, length, true, IfOk};
ghost use Rattle.pm_auto.specs.Wraps.{wrappers, inner_links, holds_first};

use crate::auto::{Auto, Edge};
use crate::edges::{has_edge, may_end_at};
use crate::expr::TypeId;
use crate::search::is_marked;
use crate::states::States;
use pm_list::Listed;
use std::alloc::{AllocError, Global};

/// The wrappers among the types of these edges, each as a link to the node of its type. Where `to_end` is set, the content
/// must be able to end after it.
pub fn keep_wrappers(
    alloc: Global,
    may_wrap: &[bool],
    count: usize,
    to_end: bool,
    sets: &States,
    edges: &[Edge],
) -> Result<Listed<Edge>, AllocError>
    ensures { IfOk result (λ l. l ≡ wrappers may_wrap.now count to_end sets.now edges.now) }
{
    let mut list = Listed::new(alloc);
    for edge in edges {
        let wraps = edge.kind < count && is_marked(may_wrap, edge.kind);
        let ends = !to_end || may_end_at(sets, edge.to);
        if wraps && ends {
            list.push(Edge {
                kind: edge.kind,
                to: edge.kind,
            })?;
        }
    }
    Ok(list)
}

/// The wrappers that may stand first in each type, which may then end.
pub fn links_within(
    alloc: Global,
    autos: &[Auto],
    may_wrap: &[bool],
) -> Result<Listed<Listed<Edge>>, AllocError>
    ensures { IfOk result (λ l. l ≡ map (inner_links may_wrap.now (length autos.now)) autos.now) }
{
    let mut list: Listed<Listed<Edge>> = Listed::new(alloc);
    for auto in autos {
        let some = keep_wrappers(
            alloc,
            may_wrap,
            autos.len(),
            true,
            &auto.sets,
            auto.edges(0),
        )?;
        list.push(some)?;
    }
    Ok(list)
}

/// Whether the target may stand first in each type.
pub fn hold_first(alloc: Global, target: TypeId, autos: &[Auto]) -> Result<Listed<bool>, AllocError>
    ensures { IfOk result (λ l. l ≡ map (holds_first target) autos.now) }
{
    let mut list = Listed::new(alloc);
    for auto in autos {
        list.push(has_edge(auto.edges(0), target))?;
    }
    Ok(list)
}
