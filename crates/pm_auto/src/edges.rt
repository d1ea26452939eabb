//! Edges of states.
ghost use Rattle.std.specs.Prelude.{◌≡◌, ◌↔◌, ℕ, true};
ghost use Rattle.pm_auto.specs.States.{has, edge_kinds};
ghost use Rattle.pm_auto.specs.Walks.{target, edges_at, ends_at};

use crate::auto::{Edge, State};
use crate::expr::TypeId;
use crate::states::States;
use pm_list::Listed;

/// The links of a node.
pub fn links_of(links: &[Listed<Edge>], node: usize) -> &[Edge]
    ensures { result.now ≡ edges_at links.now node }
{
    if node < links.len() {
        links[node].as_slice()
    } else {
        &[]
    }
}

/// Where the edge of the type leads.
pub fn target_of(edges: &[Edge], kind: TypeId) -> Option<State>
    ensures { result ≡ target kind edges.now }
{
    for edge in edges {
        if edge.kind == kind {
            return Some(edge.to);
        }
    }
    None
}

/// Whether there is an edge of the type.
pub fn has_edge(edges: &[Edge], kind: TypeId) -> bool
    ensures { result ≡ has kind (edge_kinds edges.now) }
{
    for edge in edges {
        if edge.kind == kind {
            return true;
        }
    }
    false
}

/// Whether the content may end in the state.
pub fn may_end_at(sets: &States, state: State) -> bool
    ensures { result ≡ ends_at sets.now state }
{
    let ends = sets.ends();
    if state < ends.len() {
        ends[state]
    } else {
        false
    }
}

/// Whether both have an edge of one type.
pub fn share_type(a: &[Edge], b: &[Edge]) -> bool
    ensures { (result ≡ true) ↔ ((k : ℕ) × (has k (edge_kinds a.now) ≡ true) × (has k (edge_kinds b.now) ≡ true)) }
{
    for edge in a {
        if has_edge(b, edge.kind) {
            return true;
        }
    }
    false
}
