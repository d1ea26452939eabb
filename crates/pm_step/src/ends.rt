//! Ends of steps over mappings.
ghost use Rattle.std.specs.Prelude.{◌≡◌, ◌≤◌};
ghost use Rattle.pm_map.specs.Positions.{MayLead, EachLed};
ghost use Rattle.pm_meaning.specs.Maps.{ahead, back};

use pm_map::{Moved, Positions, Side};

/// A position over a mapping by `After`.
pub(crate) fn ahead<P: Positions>(positions: &P, pos: u64) -> Moved
    requires { MayLead ◌≤◌ P.leads pos positions.now }
    ensures { EachLed ◌≤◌ P.leads pos positions.now (λ ms. result ≡ ahead ms pos) }
{
    positions.place(pos, Side::After)
}

/// A position over a mapping by `Before`.
pub(crate) fn back<P: Positions>(positions: &P, pos: u64) -> Moved
    requires { MayLead ◌≤◌ P.leads pos positions.now }
    ensures { EachLed ◌≤◌ P.leads pos positions.now (λ ms. result ≡ back ms pos) }
{
    positions.place(pos, Side::Before)
}
