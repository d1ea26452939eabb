//! The units of a text, and the text that units spell.
ghost use Rattle.std.specs.Prelude.{◌≡◌, ◌-◌, ◌↔◌, take, drop, IfOk, OnOk, IsErrOf, string_bytes};
ghost use Rattle.pm_text.specs.Units.{IsOneText, utf8, utf16};
ghost use Rattle.pm_text.specs.Lone.{HasNoLone, IsFirstLone};

use crate::form::Form;
use crate::units::Units;
use pm_text::{TextError, text_of, units_of};
use std::alloc::{AllocError, Global};

impl Units {
    /// The units of a text: one for each character below U+10000, and a pair of surrogates for each other. No surrogate
    /// among them is outside a pair.
    pub fn of_text(alloc: Global, text: &str) -> Result<Units, AllocError>
        ensures text { IfOk result (λ u. IsOneText u text.now) }
        ensures whole { IfOk result (λ u. HasNoLone u) }
    {
        let units = units_of(alloc, text)?;
        let form = Form::of_units(alloc, &units)?;
        Ok(Units { form, whole: true })
    }

    /// The text that the units spell. Its units are these again. `Lone` comes exactly where a surrogate is in no pair, and
    /// names the place of the first.
    pub fn text(&self, alloc: Global) -> Result<String, TextError>
        ensures text { IfOk result (λ s. IsOneText self.now (string_bytes s)) }
        ensures whole { OnOk result (HasNoLone self.now) }
        ensures lone { (at : _) → IsErrOf result (TextError.Lone at) ↔ IsFirstLone self.now at }
    {
        match self.first_lone() {
            Some(at) => Err(TextError::Lone { at }),
            None => self.whole_text(alloc),
        }
    }

    /// The text that the units spell, where no surrogate is in no pair. Its units are these again.
    fn whole_text(&self, alloc: Global) -> Result<String, TextError>
        requires { HasNoLone self.now }
        ensures text { IfOk result (λ s. IsOneText self.now (string_bytes s)) }
        ensures lone { (at : _) → ¬ (IsErrOf result (TextError.Lone at)) }
    {
        let units = match self.form.all(alloc) {
            Ok(units) => units,
            Err(_) => return Err(TextError::NoMemory),
        };
        text_of(alloc, &units)
    }

    /// The text that the units spell, with U+FFFD for each surrogate in no pair. Where there is none, its units are these
    /// again.
    pub fn lossy_text(&self, alloc: Global) -> Result<String, AllocError>
        ensures text { IfOk result (λ s. string_bytes s ≡ utf8 self.now) }
        ensures again { OnOk result (HasNoLone self.now → utf16 (utf8 self.now) ≡ self.now) }
    {
        let units = self.form.all(alloc)?;
        lossy(alloc, &units)
    }

    /// The text that the units from..to spell, as far as there are units, with U+FFFD for each surrogate in no pair of them.
    pub fn part_text(&self, alloc: Global, from: usize, to: usize) -> Result<String, AllocError>
        ensures { IfOk result (λ s. string_bytes s ≡ utf8 (take (to - from) (drop from self.now))) }
    {
        let end = self.form.len().min(to);
        let start = end.min(from);
        let units = self.form.list(alloc, start, end)?;
        lossy(alloc, &units)
    }
}

/// The text that the units spell, with U+FFFD for each surrogate in no pair.
#[tactic(auto, unfolding(pm_text::specs::Units::utf8))]
fn lossy(alloc: Global, units: &[u16]) -> Result<String, AllocError>
    ensures text { IfOk result (λ s. string_bytes s ≡ utf8 units.now) }
    ensures again { OnOk result (HasNoLone units.now → utf16 (utf8 units.now) ≡ units.now) }
{
    match text_of(alloc, units) {
        Ok(text) => Ok(text),
        Err(TextError::NoMemory) => Err(AllocError),
        Err(TextError::Lone { at: _ }) => {
            let text = String::from_utf16_lossy(alloc, units)?;
            Ok(text)
        }
    }
}
