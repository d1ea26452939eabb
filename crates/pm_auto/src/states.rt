//! The states of an automaton.
ghost use Rattle.std.specs.Prelude.{◌≡◌, ◌++◌, ◌∷◌, [], nat_lt, if◌then◌else◌, map, length, IfOk, OnOk};
ghost use Rattle.pm_auto.specs.declared.sets.PlaceSet.{PlaceSet};
ghost use Rattle.pm_auto.specs.Ways.{states_of};

use crate::auto::State;
use crate::copies::{copy_expr, copy_plain};
use crate::expr::{Expr, TypeId};
use crate::sets::PlaceSet;
use pm_list::Listed;
use std::alloc::{AllocError, Global};
use std::marker::Model;

/// A way to a state: the state before it, and the type that leads on.
#[derive(Clone, Copy, Drop, Debug)]
pub struct Way {
    pub from: State,
    pub kind: TypeId,
}

/// The states of an automaton. A contract sees them as their sets of places. These may take much memory, and no call reads them: so
/// only what determines them is kept, the expression and a way to each state but the start, and of each whether the content may
/// end in it.
#[derive(Drop, Debug)]
pub struct States {
    expr: Expr,
    ways: Listed<Way>,
    ends: Listed<bool>,
}

impl Model for States {
    ghost use Rattle.std.specs.Prelude.{◌≡◌, List, map};
    ghost use Rattle.pm_auto.specs.declared.sets.PlaceSet.{PlaceSet};
    ghost use Rattle.pm_auto.specs.Ways.{states_of};

    ghost Value = { List PlaceSet };

    ghost view = { λ s. states_of s.expr s.ways };

    ghost invariant = { λ s. s.ends ≡ map (λ (p : PlaceSet). p.ends) (states_of s.expr s.ways) };
}

impl States {
    /// The states of the expression to which the ways lead, as these sets.
    pub(crate) fn of(
        alloc: Global,
        expr: &Expr,
        ways: Listed<Way>,
        sets: &[PlaceSet],
    ) -> Result<States, AllocError>
        requires { sets.now ≡ states_of expr.now ways }
        ensures { IfOk result (λ s. s ≡ sets.now) }
    {
        let expr = copy_expr(alloc, expr)?;
        let ends = ends_of_sets(alloc, sets)?;
        Ok(States { expr, ways, ends })
    }

    /// States equal to these.
    pub(crate) fn copy(&self, alloc: Global) -> Result<States, AllocError>
        ensures { IfOk result (λ s. s ≡ self.now) }
    {
        let expr = copy_expr(alloc, &self.expr)?;
        let ways = copy_plain(alloc, self.ways.as_slice())?;
        let ends = copy_plain(alloc, self.ends.as_slice())?;
        Ok(States { expr, ways, ends })
    }

    /// Of each state whether the content may end in it.
    pub(crate) fn ends(&self) -> &[bool]
        ensures { result.now ≡ map (λ (p : PlaceSet). p.ends) self.now }
    {
        self.ends.as_slice()
    }
}

/// Of each set whether the content may end.
fn ends_of_sets(alloc: Global, sets: &[PlaceSet]) -> Result<Listed<bool>, AllocError>
    ensures { IfOk result (λ l. l ≡ map (λ (p : PlaceSet). p.ends) sets.now) }
{
    let mut ends = Listed::from_vec(Vec::with_capacity(alloc, sets.len())?);
    for set in sets {
        ends.push(set.ends)?;
    }
    Ok(ends)
}

/// Appends the way where the state that it leads to has none yet.
pub(crate) fn add_way(ways: &mut Listed<Way>, to: State, way: Way) -> Result<(), AllocError>
    ensures { OnOk result (ways.new ≡ (if nat_lt (length ways.old) to then ways.old ++ way ∷ [] else ways.old)) }
{
    if to > ways.len() {
        ways.push(way)?;
    }
    Ok(())
}
