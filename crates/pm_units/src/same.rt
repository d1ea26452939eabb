//! Texts compared.
ghost use Rattle.std.specs.Prelude.{◌≡◌, ◌↔◌, ◌+◌, ◌≤◌, length, slice_range, IsTrue};
ghost use Rattle.pm_units.specs.Pieces.{form_units, piece_units, IsForm};

use crate::form::Form;
use crate::units::Units;

impl Units {
    /// Whether both have the same units. It takes no memory.
    pub fn same(&self, other: &Units) -> bool
        ensures { IsTrue result ↔ (self.now ≡ other.now) }
    {
        self.form.same(&other.form)
    }
}

impl Form {
    /// Whether both have the same units. It takes no memory.
    fn same(&self, other: &Form) -> bool
        requires form { IsForm self.now }
        requires other { IsForm other.now }
        ensures { IsTrue result ↔ (form_units self.now ≡ form_units other.now) }
    {
        if self.len() != other.len() {
            return false;
        }
        for i in 0..self.len() {
            if self.unit(i) != other.unit(i) {
                return false;
            }
        }
        true
    }
}
