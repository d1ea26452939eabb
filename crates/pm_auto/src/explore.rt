//! The states that can be reached, and their edges.
ghost use Rattle.std.specs.Prelude.{◌≡◌, ◌<◌, ◌*◌, Bool, true, false, length, IfOk, IfErr, OnOk, MatchOption};
ghost use Rattle.pm_auto.specs.States.{Below, Apart, Edges_of, Too_many, set_at, start_of};
ghost use Rattle.pm_auto.specs.Automata.{Is_automaton};
ghost use Rattle.pm_auto.specs.Bits.{as_set};
ghost use Rattle.pm_auto.specs.Groups.{Are_twins};
ghost use Rattle.pm_auto.specs.Known.{All_known};
ghost use Rattle.pm_auto.specs.Prints.{print_of, Are_prints};
ghost use Rattle.pm_auto.specs.Found.{Found, Grows, Placed, Only_wide};
ghost use Rattle.pm_auto.specs.Alike.{Alike_rows};
ghost use Rattle.pm_auto.specs.Trim.{trimmed};
ghost use Rattle.pm_auto.specs.Table.{rows as table};
ghost use Rattle.pm_auto.specs.Ways.{Are_ways};

use crate::auto::{Auto, Edge, State};
use crate::error::AutoError;
use crate::expr::Expr;
use crate::groups::{group, list_at, twins};
use crate::known::{Known, KnownStates, no_states, print, print_of_list, recall, remember};
use crate::places::Row;
use crate::sets::{BitSet, PlaceSet, after, as_list};
use crate::states::{States, Way, add_way};
use pm_list::Listed;
use std::alloc::Global;

/// The most states that an automaton may have.
const MAX_STATES: usize = 1000;

/// Whether the two are the same set. Sets whose prints differ are not compared.
fn same(a: &PlaceSet, print: u64, b: &PlaceSet, other: u64) -> bool
    requires first { print ≡ print_of a.now }
    requires second { other ≡ print_of b.now }
    ensures equal { result ≡ true → a.now ≡ b.now }
    ensures different { result ≡ false → a.now ≡ b.now → ⊥ }
{
    if print != other {
        return false;
    }
    a.ends == b.ends && a.places.as_slice() == b.places.as_slice()
}

/// The number of the state among those found, if it is one of them.
fn find(sets: &[PlaceSet], prints: &[u64], set: &PlaceSet, print: u64) -> Option<State>
    requires prints { Are_prints sets.now prints.now }
    requires print { print ≡ print_of set.now }
    ensures { MatchOption result (Apart set.now sets.now) (λ i. (i < length sets.now) × (set_at sets.now i ≡ set.now)) }
{
    for (i, other) in sets.iter().enumerate() {
        if same(set, print, other, prints[i]) {
            return Some(i);
        }
    }
    None
}

/// The number of the state, which is put at the end where it is new.
fn place(
    sets: &mut Listed<PlaceSet>,
    prints: &mut Listed<u64>,
    set: PlaceSet,
) -> Result<State, AutoError>
    requires { Are_prints sets.old prints.old }
    ensures ok { IfOk result (λ t. Placed sets.old set t sets.new) }
    ensures prints { OnOk result (Are_prints sets.new prints.new) }
    ensures err { IfErr result (λ e. Only_wide (Apart set sets.old × (999 < length sets.old)) e) }
{
    let print = print_of_list(&set);
    if let Some(state) = find(sets.as_slice(), prints.as_slice(), &set, print) {
        return Ok(state);
    }
    let state = sets.len();
    if state >= MAX_STATES {
        return Err(AutoError::TooWide);
    }
    prints.push(print)?;
    sets.push(set)?;
    Ok(state)
}

/// The number of the state, which is put at the end where it is new. A state that is known is not made a list of.
fn reach(
    alloc: Global,
    rows: &[Row],
    sets: &mut Listed<PlaceSet>,
    prints: &mut Listed<u64>,
    known: &mut KnownStates,
    next: BitSet,
) -> Result<State, AutoError>
    requires room { length rows.now < 64 * length next.words }
    requires prints { Are_prints sets.old prints.old }
    requires known { All_known rows.now sets.old known.old.states }
    ensures ok { IfOk result (λ t. Placed sets.old (as_set rows.now next) t sets.new) }
    ensures prints { OnOk result (Are_prints sets.new prints.new) }
    ensures known { OnOk result (All_known rows.now sets.new known.new.states) }
    ensures err { IfErr result (λ e. Only_wide (Apart (as_set rows.now next) sets.old × (999 < length sets.old)) e) }
{
    let print = print(&next);
    if let Some(state) = recall(known, &next, print) {
        return Ok(state);
    }
    let set = as_list(alloc, rows, &next)?;
    let state = match place(sets, prints, set) {
        Ok(state) => state,
        Err(error) => return Err(error),
    };
    remember(
        known,
        Known {
            set: next,
            print,
            state,
        },
    )?;
    Ok(state)
}

/// The edges of a state, one for each type at hand, in the order of their first places. The states that they lead to are put
/// at the end where they are new, and so are the ways to them.
fn edges_of(
    alloc: Global,
    rows: &[Row],
    twins: &[usize],
    sets: &mut Listed<PlaceSet>,
    prints: &mut Listed<u64>,
    known: &mut KnownStates,
    ways: &mut Listed<Way>,
    at: State,
) -> Result<Listed<Edge>, AutoError>
    requires twins { Are_twins rows.now twins.now }
    requires found { Found rows.now sets.old }
    requires prints { Are_prints sets.old prints.old }
    requires known { All_known rows.now sets.old known.old.states }
    requires ways { Are_ways rows.now sets.old ways.old }
    requires within { at < length sets.old }
    ensures edges { IfOk result (λ es. Edges_of rows.now sets.new (set_at sets.old at) es) }
    ensures grows { OnOk result (Grows sets.old sets.new) }
    ensures found { OnOk result (Found rows.now sets.new) }
    ensures prints { OnOk result (Are_prints sets.new prints.new) }
    ensures known { OnOk result (All_known rows.now sets.new known.new.states) }
    ensures ways { OnOk result (Are_ways rows.now sets.new ways.new) }
    ensures err { IfErr result (λ e. Only_wide (Too_many rows.now (set_at sets.old 0)) e) }
{
    let places = sets.as_slice()[at].places.as_slice();
    let groups = group(alloc, rows, twins, places)?;
    let mut edges = Listed::from_vec(Vec::with_capacity(alloc, groups.heads.len())?);
    for head in groups.heads.as_slice() {
        let row = &rows[*head];
        let kind = row.kind;
        let same = list_at(groups.lists.as_slice(), twins[*head]);
        let next = after(alloc, rows, same, kind)?;
        let to = match reach(alloc, rows, sets, prints, known, next) {
            Ok(to) => to,
            Err(error) => return Err(error),
        };
        add_way(ways, to, Way { from: at, kind })?;
        edges.push(Edge { kind, to })?;
    }
    Ok(edges)
}

/// The automaton of these places and this start, which are those of the expression. `TooWide` where more than 1,000 states can be
/// reached.
pub fn explore(alloc: Global, expr: &Expr, rows: &[Row], start: PlaceSet) -> Result<Auto, AutoError>
    requires below { Below (length rows.now) start.places }
    requires rows { Alike_rows rows.now (table 0 (trimmed expr.now)) }
    requires start { start ≡ start_of (trimmed expr.now) }
    ensures ok { IfOk result (λ a. Is_automaton rows.now start a) }
    ensures err { IfErr result (λ e. Only_wide (Too_many rows.now start) e) }
{
    let twins = twins(alloc, rows)?;
    let mut prints = Listed::new(alloc);
    prints.push(print_of_list(&start))?;
    let mut sets = Listed::new(alloc);
    sets.push(start)?;
    let mut known = no_states(alloc, rows.len())?;
    let mut ways = Listed::new(alloc);
    let mut edges: Listed<Listed<Edge>> = Listed::new(alloc);
    'states: while edges.len() < sets.len() {
        let at = edges.len();
        let next = edges_of(
            alloc,
            rows,
            twins.as_slice(),
            &mut sets,
            &mut prints,
            &mut known,
            &mut ways,
            at,
        )?;
        edges.push(next)?;
    }
    let sets = States::of(alloc, expr, ways, sets.as_slice())?;
    Ok(Auto { sets, edges })
}
