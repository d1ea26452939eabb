//! Automata.
ghost use Rattle.std.specs.Prelude.{◌≡◌, ◌<◌, ◌↔◌, ℕ, List, true, false, slice_index_or, length, IfOk, IfErr, IfSome};
ghost use Rattle.pm_auto.specs.Graph.{Is_graph};
ghost use Rattle.pm_auto.specs.GraphProps.{graph-prop};

use crate::copies::copy_edges;
use crate::edges::{has_edge, links_of, may_end_at, share_type, target_of};
use crate::error::AutoError;
use crate::explore::explore;
use crate::expr::{Expr, TypeId};
use crate::fills::{ends_of, keep_all};
use crate::layout::lay_out;
use crate::mixed::has_type;
use crate::search::{reaching, search};
use crate::sets::{PlaceSet, in_order};
use crate::states::States;
use crate::width::width;
use crate::wraps::{hold_first, keep_wrappers, links_within};
use pm_list::Listed;
use std::alloc::{AllocError, Global};

/// The most occurrences of types that an expansion may have.
const MAX_PLACES: usize = 4096;

/// A state of an automaton: its number, below the number of its states. The start is 0.
pub type State = usize;

/// A step of an automaton: a type, and the state that it leads to.
#[derive(Clone, Copy, Drop, Debug)]
pub struct Edge {
    pub kind: TypeId,
    pub to: State,
}

/// The automaton of a content expression. Each state is a set of places, and has a list of edges, each to a state of the
/// automaton and no two of one type.
/// ProseMirror: `ContentMatch`.
#[derive(Drop, Debug)]
pub struct Auto {
    pub(crate) sets: States,
    pub(crate) edges: Listed<Listed<Edge>>,
    ghost some: { 0 < length sets },
    ghost full: { length edges ≡ length sets },
    ghost graph: { Is_graph (length sets) edges } by { graph-prop (length sets) edges },
}

impl Auto {
    ghost use Rattle.pm_auto.specs.Lang.{In};
    ghost use Rattle.pm_auto.specs.Expand.{expand};
    ghost use Rattle.pm_auto.specs.Trim.{trimmed};
    ghost use Rattle.pm_auto.specs.Table.{width as places, rows};
    ghost use Rattle.pm_auto.specs.Runs.{fits};
    ghost use Rattle.pm_auto.specs.Automata.{Is_automaton};
    ghost use Rattle.pm_auto.specs.States.{start_of, Too_many};
    ghost use Rattle.pm_auto.specs.Types.{Is_mixed};
    ghost use Rattle.pm_auto.specs.Walks.{accepted, target, edges_at, ends_at};
    ghost use Rattle.pm_auto.specs.Built.{Is_fault};
    ghost use Rattle.pm_auto.specs.Graph.{Is_shortest};
    ghost use Rattle.pm_auto.specs.Fills.{makeable, filled};
    ghost use Rattle.pm_auto.specs.Finish.{Finishes};
    ghost use Rattle.pm_auto.specs.Wraps.{Compatible, wrap_links, wrap_goals};

    /// The automaton of the expression; `inline` says of each type whether it is inline;
    /// a type without an entry counts as a block type. Its states are the sets of places
    /// that may come next after some list, its edges stand in the order of their first places, and a list leads from the
    /// start to a valid end exactly where it is in the expression's language. `Mixed` exactly where both an inline and a
    /// block type occur; else `TooWide` exactly where the expansion has more than 4,096 occurrences of types or more than
    /// 1,000 states can be reached.
    ///
    /// The places are the occurrences of types in the expansion, without what stands before or after a part that has no list,
    /// as a choice of nothing: so each place of a state is one that some list passes.
    pub fn build(alloc: Global, expr: &Expr, inline: &[bool]) -> Result<Auto, AutoError>
        ensures automaton { IfOk result (λ a. Is_automaton (rows 0 (trimmed expr.now)) (start_of (trimmed expr.now)) a) }
        ensures language { IfOk result (λ a. (w : List ℕ) → (accepted a.sets a.edges 0 w ≡ true) ↔ In expr.now w) }
        ensures pure { IfOk result (λ _. (Is_mixed expr.now inline.now → ⊥) × (places (expand expr.now) < 4097)) }
        ensures few { IfOk result (λ _. Too_many (rows 0 (trimmed expr.now)) (start_of (trimmed expr.now)) → ⊥) }
        ensures fault { IfErr result (λ e. Is_fault expr.now inline.now e) }

        // The test that definitions use for the language agrees with it.
        ensures decides { (w : List ℕ) → (fits expr.now w ≡ true) ↔ In expr.now w }
    {
        if has_type(expr, inline, true) && has_type(expr, inline, false) {
            return Err(AutoError::Mixed);
        }
        if width(expr) > MAX_PLACES {
            return Err(AutoError::TooWide);
        }
        let part = lay_out(alloc, expr, 0)?;
        let rows = part.rows.as_slice();
        let places = in_order(alloc, rows, part.first.as_slice())?;
        let start = PlaceSet {
            places,
            ends: part.may_be_empty,
        };
        explore(alloc, expr, rows, start)
    }

    /// An automaton equal to this one.
    pub fn copy(&self, alloc: Global) -> Result<Auto, AllocError>
        ensures { IfOk result (λ a. a ≡ self.now) }
    {
        let sets = self.sets.copy(alloc)?;
        let edges = copy_edges(alloc, self.edges.as_slice())?;
        Ok(Auto { sets, edges })
    }

    /// The state before any child.
    pub fn start(&self) -> State
        ensures start { result ≡ 0 }
        ensures inside { result < length self.now.sets }
    {
        let _ = &self.sets;
        0
    }

    /// The state after a child of the type; `None` exactly where the state has no edge of the type.
    /// ProseMirror: `ContentMatch.matchType`.
    pub fn next(&self, state: State, kind: TypeId) -> Option<State>
        requires { state < length self.now.sets }
        ensures edge { result ≡ target kind (edges_at self.now.edges state) }
        ensures inside { IfSome result (λ t. t < length self.now.sets) }
    {
        target_of(self.edges(state), kind)
    }

    /// Whether the content may end in the state.
    /// ProseMirror: `ContentMatch.validEnd`.
    pub fn valid_end(&self, state: State) -> bool
        requires { state < length self.now.sets }
        ensures { result ≡ ends_at self.now.sets state }
    {
        may_end_at(&self.sets, state)
    }

    /// The edges of the state, one for each type that may come next, in the order of their first places.
    pub fn edges(&self, state: State) -> &[Edge]
        requires { state < length self.now.sets }
        ensures { result.now ≡ edges_at self.now.edges state }
    {
        links_of(self.edges.as_slice(), state)
    }

    /// Whether some type may stand first in both: both starts have an edge of one type.
    pub fn compatible(&self, other: &Auto) -> bool
        ensures { (result ≡ true) ↔ Compatible self.now other.now }
    {
        share_type(self.edges(0), other.edges(0))
    }

    /// The shortest list of types that can be made, by `can`, after which the types `after` fit, and after them the content
    /// may end where `to_end` is set. Of lists of one length it is the first by the order of edges at the first difference.
    /// `None` exactly where there is none. A type without an entry in `can` can't be made.
    /// ProseMirror: `ContentMatch.fillBefore`, whose list need not be the shortest.
    pub fn fill(
        &self,
        alloc: Global,
        state: State,
        after: &[TypeId],
        to_end: bool,
        can: &[bool],
    ) -> Result<Option<Listed<TypeId>>, AllocError>
        requires { state < length self.now.sets }
        ensures { IfOk result (λ o. Is_shortest (makeable can.now self.now.edges) (filled self.now to_end after.now) state o) }
    {
        let links = keep_all(alloc, can, self.edges.as_slice())?;
        let goals = ends_of(alloc, self, after, to_end)?;
        search(alloc, links.as_slice(), goals.as_slice(), state)
    }

    /// For each state whether some list of types that can be made, by `can`, leads from it to a valid end. A type without an
    /// entry in `can` can't be made.
    pub fn finishing(&self, alloc: Global, can: &[bool]) -> Result<Listed<bool>, AllocError>
        ensures states { IfOk result (λ l. length l ≡ length self.now.sets) }
        ensures finish { IfOk result (λ l. (s : ℕ) → s < length self.now.sets → (slice_index_or l s false ≡ true) ↔ Finishes can.now self.now s) }
    {
        let links = keep_all(alloc, can, self.edges.as_slice())?;
        let goals = ends_of(alloc, self, &[], true)?;
        reaching(alloc, links.as_slice(), goals.as_slice())
    }

    /// The shortest list of wrappers, by `may_wrap`, of which the first stands in the state, each later one stands first in
    /// the one before, which may then end, and the target may stand first in the last, or in the state where the list is
    /// empty. `autos` has the automaton of each type. Of lists of one length it is the first by the order of edges at the
    /// first difference. `None` exactly where there is none. A type without an entry wraps nothing.
    /// ProseMirror: `ContentMatch.findWrapping`.
    pub fn wrapping(
        &self,
        alloc: Global,
        state: State,
        target: TypeId,
        autos: &[Auto],
        may_wrap: &[bool],
    ) -> Result<Option<Listed<TypeId>>, AllocError>
        requires { state < length self.now.sets }
        ensures { IfOk result (λ o. Is_shortest (wrap_links self.now state autos.now may_wrap.now) (wrap_goals self.now state target autos.now) (length autos.now) o) }
    {
        let count = autos.len();
        let mut links = links_within(alloc, autos, may_wrap)?;
        let first = keep_wrappers(alloc, may_wrap, count, false, &self.sets, self.edges(state))?;
        links.push(first)?;
        let mut goals = hold_first(alloc, target, autos)?;
        goals.push(has_edge(self.edges(state), target))?;
        search(alloc, links.as_slice(), goals.as_slice(), count)
    }
}
