//! The units of a text.
ghost use Rattle.std.specs.Prelude.{◌≡◌, ◌↔◌, ◌≤◌, ◌-◌, [], ◌++◌, length, take, drop, IfOk, OnOk, OnErr, IsTrue};
ghost use Rattle.std.specs.List.{slice_get};

use crate::form::Form;
use crate::lone::{are_whole, both_are_whole, part_is_whole};
use std::alloc::{AllocError, Global};
use std::marker::Model;

/// The UTF-16 units of a text. A contract sees the list of their numbers.
#[derive(Drop)]
pub struct Units {
    pub(crate) form: Form,
    pub(crate) whole: bool,
}

impl Model for Units {
    ghost use Rattle.std.specs.Prelude.{List, ℕ};

    ghost Value = { List ℕ };

    ghost use Rattle.pm_units.specs.Pieces.{form_units};
    ghost use Rattle.pm_units.specs.Text.{IsText};

    ghost view = { λ u. form_units u.form };

    ghost invariant = { λ u. IsText u.form u.whole };
}

impl Units {
    /// No units. It takes no memory.
    pub fn new(alloc: Global) -> Units
        ensures { result ≡ [] }
    {
        Units {
            form: Form::new(alloc),
            whole: true,
        }
    }

    /// These units. Surrogates in no pair may be among them.
    pub fn of_units(alloc: Global, units: &[u16]) -> Result<Units, AllocError>
        ensures { IfOk result (λ u. u ≡ units.now) }
    {
        let whole = are_whole(units);
        let form = Form::of_units(alloc, units)?;
        Ok(Units { form, whole })
    }

    /// The number of units. It takes no memory.
    pub fn len(&self) -> usize
        ensures { result ≡ length self.now }
    {
        self.form.len()
    }

    /// Whether there is no unit. It takes no memory.
    pub fn is_empty(&self) -> bool
        ensures { IsTrue result ↔ (self.now ≡ []) }
    {
        self.form.len() == 0
    }

    /// The unit at `at`, counted from 0; None past the last. It takes no memory.
    pub fn unit(&self, at: usize) -> Option<u16>
        ensures { result ≡ slice_get self.now at }
    {
        if at < self.form.len() {
            Some(self.form.unit(at))
        } else {
            None
        }
    }

    /// Units equal to these.
    pub fn copy(&self, alloc: Global) -> Result<Units, AllocError>
        ensures { IfOk result (λ u. u ≡ self.now) }
    {
        let form = self.form.copy(alloc)?;
        Ok(Units {
            form,
            whole: self.whole,
        })
    }

    /// These units and then those of `other`.
    pub fn join(&self, alloc: Global, other: &Units) -> Result<Units, AllocError>
        ensures { IfOk result (λ u. u ≡ self.now ++ other.now) }
    {
        let form = self.form.join(alloc, &other.form)?;
        let whole = both_are_whole(self, other, &form);
        Ok(Units { form, whole })
    }

    /// The units from..to, counted from 0.
    pub fn cut(&self, alloc: Global, from: usize, to: usize) -> Result<Units, AllocError>
        requires order { from ≤ to }
        requires within { to ≤ length self.now }
        ensures { IfOk result (λ u. u ≡ take (to - from) (drop from self.now)) }
    {
        let form = self.form.cut(alloc, from, to)?;
        let whole = part_is_whole(self, &form);
        Ok(Units { form, whole })
    }

    /// Appends these units. After out of memory the text is as it was.
    pub fn append(&mut self, alloc: Global, units: &Units) -> Result<(), AllocError>
        ensures ok { OnOk result (self.new ≡ self.old ++ units.now) }
        ensures err { OnErr result (self.new ≡ self.old) }
    {
        let joined = self.join(alloc, units)?;
        *self = joined;
        Ok(())
    }
}
