//! The rule of a desk's table, and what each step tells.
use crate::history::{Opening, Stored, View};
use atomic_table::{Join, Play, Split, TableRule};
use pm_change::Machine;
use std::marker::PhantomData;
use std::snapshot::Snapshot;

/// What the table's slot holds: the machine with its history.
pub type Slot<M> = Stored<M, <M as Machine>::Request>;

/// What a seat knows.
pub type Sight<M> = View<M, <M as Machine>::Rules, <M as Machine>::Request>;

/// What the table's rule speaks of.
pub type About<M> = Snapshot<Opening<M, <M as Machine>::Rules>>;

/// What a thread steps with.
pub type Token<M> = atomic_table::Seat<Slot<M>, Sight<M>>;

/// The rule of the table.
pub struct Turns<M> {
    machine: PhantomData<M>,
}

impl<M: Machine> TableRule<Slot<M>, Sight<M>, About<M>> for Turns<M> {
    ghost use Rattle.std.specs.Prelude.{[]};
    ghost use Rattle.pm_desk.specs.Turns.{Kept, newcomer};

    ghost holds = { λ about. Kept M.next M.good M.own about.value };

    ghost first = { λ about. newcomer about.value 0 [] };
}

/// A try for the turn.
pub struct Try<M> {
    machine: PhantomData<M>,
}

impl<M: Machine> Play<Slot<M>, Sight<M>> for Try<M> {
    ghost use Rattle.pm_desk.specs.Turns.{tried};

    ghost then = { tried M.next M.good };
}

/// The release of the turn. Where the seat has put a call at the end of the slot's history, that call stands in the
/// desk's history from then on.
pub struct Release<M> {
    machine: PhantomData<M>,
}

impl<M: Machine> Play<Slot<M>, Sight<M>> for Release<M> {
    ghost use Rattle.pm_desk.specs.Turns.{released};

    ghost then = { released M.own };
}

/// A read, by which a seat learns of the history.
pub struct Look<M> {
    machine: PhantomData<M>,
}

impl<M: Machine> Play<Slot<M>, Sight<M>> for Look<M> {
    ghost use Rattle.pm_desk.specs.Turns.{looked};

    ghost then = { looked };
}

/// The split of a seat from the first one.
pub struct Deal<M> {
    machine: PhantomData<M>,
}

impl<M: Machine> Split<Sight<M>> for Deal<M> {
    ghost use Rattle.pm_desk.specs.Turns.{with_split, split_off};

    ghost left = { with_split };

    ghost right = { split_off };
}

/// The join of a seat to the first one.
pub struct Gather<M> {
    machine: PhantomData<M>,
}

impl<M: Machine> Join<Sight<M>> for Gather<M> {
    ghost use Rattle.pm_desk.specs.Turns.{with_joined, spent};

    ghost both = { with_joined };

    ghost spent = { spent };
}
