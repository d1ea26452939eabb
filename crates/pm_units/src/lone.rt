//! Surrogates that are in no pair. A text keeps whether it was found to have none; after a change only the units beside the
//! change are looked at.
ghost use Rattle.std.specs.Prelude.{◌≡◌, ℕ, ◌-◌, ◌<◌, List, ◌++◌, true, false, length, slice_index, IfSome, IsNone};
ghost use Rattle.std.specs.Char.Utf16.{is_high_surrogate, is_low_surrogate};
ghost use Rattle.pm_text.specs.Lone.{is_pair, is_lone, is_lone_at, unit_before, HasNoLone, IsFirstLone};
ghost use Rattle.pm_units.specs.Pieces.{form_units, IsForm};

use crate::form::Form;
use crate::units::Units;
use pm_text::first_lone;

impl Units {
    /// The place of the first surrogate that is in no pair, counted in units from 0. It takes no memory.
    pub fn first_lone(&self) -> Option<usize>
        ensures found { IfSome result (λ at. IsFirstLone self.now at) }
        ensures none { IsNone result → HasNoLone self.now }
    {
        if self.whole {
            None
        } else {
            self.form.first_lone()
        }
    }
}

impl Form {
    /// The place of the first surrogate that is in no pair. It takes no memory.
    pub(crate) fn first_lone(&self) -> Option<usize>
        requires { IsForm self.now }
        ensures found { IfSome result (λ at. IsFirstLone (form_units self.now) at) }
        ensures none { IsNone result → HasNoLone (form_units self.now) }
    {
        for i in 0..self.len() {
            if self.is_lone_at(i) {
                return Some(i);
            }
        }
        None
    }

    /// Whether no surrogate is in no pair. It takes no memory.
    fn is_whole(&self) -> bool
        requires { IsForm self.now }
        ensures { result ≡ true → HasNoLone (form_units self.now) }
    {
        match self.first_lone() {
            None => true,
            Some(_) => false,
        }
    }

    /// Whether the unit at `i` is a surrogate in no pair. It takes no memory.
    fn is_lone_at(&self, i: usize) -> bool
        requires form { IsForm self.now }
        requires within { i < length (form_units self.now) }
        ensures { result ≡ is_lone_at (form_units self.now) i }
    {
        let unit = self.unit_at(i);
        if !is_high(unit) && !is_low(unit) {
            return false;
        }
        is_lone(self.unit_before(i), unit, self.unit_at(i + 1))
    }

    /// The unit before the place `at`, or 0 where there is none. It takes no memory.
    fn unit_before(&self, at: usize) -> u16
        requires { IsForm self.now }
        ensures { result ≡ unit_before (form_units self.now) at }
    {
        match at.checked_sub(1) {
            Some(place) => self.unit_at(place),
            None => 0,
        }
    }

    /// The unit at `at`, or 0 past the end. It takes no memory.
    fn unit_at(&self, at: usize) -> u16
        requires { IsForm self.now }
        ensures { result ≡ slice_index (form_units self.now) at }
    {
        if at < self.len() { self.unit(at) } else { 0 }
    }

    /// Whether the first unit is no low surrogate, and the last one no high surrogate. It takes no memory.
    fn has_whole_ends(&self) -> bool
        requires { IsForm self.now }
        ensures first { result ≡ true → is_low_surrogate (slice_index (form_units self.now) 0) ≡ false }
        ensures last { result ≡ true → is_high_surrogate (slice_index (form_units self.now) (length (form_units self.now) - 1)) ≡ false }
    {
        let len = self.len();
        if len == 0 {
            return true;
        }
        !is_low(self.unit(0)) && !is_high(self.unit(len - 1))
    }
}

/// Whether no surrogate of these units is in no pair.
pub(crate) fn are_whole(units: &[u16]) -> bool
    ensures { result ≡ true → HasNoLone units.now }
{
    match first_lone(units) {
        None => true,
        Some(_) => false,
    }
}

/// Whether a part of a text is known to have no lone surrogate. Where the text has none, only the ends of the part are
/// looked at: no other unit has other neighbours than in the text.
pub(crate) fn part_is_whole(text: &Units, part: &Form) -> bool
    requires { IsForm part.now }
    ensures { (before after : List ℕ) → text.now ≡ before ++ (form_units part.now ++ after) → result ≡ true → HasNoLone (form_units part.now) }
{
    if text.whole {
        part.has_whole_ends()
    } else {
        part.is_whole()
    }
}

/// Whether two texts, put together, are known to have no lone surrogate. Where neither has one, nothing is looked at. Else
/// all is looked at where the two make a pair.
pub(crate) fn both_are_whole(first: &Units, second: &Units, joined: &Form) -> bool
    requires form { IsForm joined.now }
    requires units { form_units joined.now ≡ first.now ++ second.now }
    ensures { result ≡ true → HasNoLone (form_units joined.now) }
{
    if first.whole && second.whole {
        return true;
    }
    makes_pair(&first.form, &second.form) && joined.is_whole()
}

/// Whether the last unit of the one text and the first of the other are a pair.
fn makes_pair(first: &Form, second: &Form) -> bool
    requires first { IsForm first.now }
    requires second { IsForm second.now }
    ensures { result ≡ is_pair (unit_before (form_units first.now) (length (form_units first.now))) (slice_index (form_units second.now) 0) }
{
    is_pair(first.unit_before(first.len()), second.unit_at(0))
}

/// Whether a surrogate with these units before and after it is in no pair.
fn is_lone(before: u16, unit: u16, after: u16) -> bool
    ensures { result ≡ is_lone before unit after }
{
    (is_high(unit) || is_low(unit)) && !is_pair(before, unit) && !is_pair(unit, after)
}

fn is_pair(first: u16, second: u16) -> bool
    ensures { result ≡ is_pair first second }
{
    is_high(first) && is_low(second)
}

/// The first unit of a pair.
fn is_high(unit: u16) -> bool
    ensures { result ≡ is_high_surrogate unit }
{
    0xD800 <= unit && unit < 0xDC00
}

/// The second unit of a pair.
fn is_low(unit: u16) -> bool
    ensures { result ≡ is_low_surrogate unit }
{
    0xDC00 <= unit && unit < 0xE000
}
