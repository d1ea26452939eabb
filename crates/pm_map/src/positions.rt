//! What tells where positions go over a mapping.
ghost use Rattle.std.specs.Prelude.{◌≡◌, ℕ, ◌≤◌, List};
ghost use Rattle.pm_map.specs.declared.mapping.Mirrored.{Mirrored};
ghost use Rattle.pm_map.specs.Through.{ArePaired, through};
ghost use Rattle.pm_map.specs.Fits.{FitBetween};
ghost use Rattle.pm_map.specs.Positions.{MayLead, EachLed};

use crate::side::Side;
use crate::step_map::Moved;

/// A value that tells where positions go over a mapping, as a mapping does. What it tells is the same in each position,
/// flags included, whatever it keeps of the mapping.
pub trait Positions: Drop {
    // The value stands for a mapping that leads from a document of the first size to one of the second.
    ghost leads: { Self → List Mirrored → ℕ → ℕ → Type 0 };

    /// Where the position `pos`, in tokens, goes over the mapping by its side, with the flags as `Mapping::map` gives them.
    /// It must be within the document from which the mapping leads. `recover` is None.
    fn place(&self, pos: u64, side: Side) -> Moved
        requires { MayLead ◌≤◌ leads pos self.now }
        ensures { EachLed ◌≤◌ leads pos self.now (λ ms. result ≡ through ms pos side) };

    // Below the last method, so that it is a law: each such mapping is paired, and fits the sizes.
    ghost fits: { (p : Self) (ms : List Mirrored) (n k : ℕ) → leads p ms n k → ArePaired ms × FitBetween ms n k };
}
