//! Surrogate units: pairs, and lone ones.
ghost use Rattle.std.specs.Prelude.{◌≡◌, ◌<◌, ◌||◌, false, length, not, slice_index, IfSome, IsNone};
ghost use Rattle.std.specs.Char.Utf16.{is_high_surrogate, is_low_surrogate};
ghost use Rattle.pm_text.specs.Lone.{is_pair, is_lone_at, unit_before, parts_pair, HasNoLone, HasNoSurrogate, IsFirstLone};

/// Whether the place `at`, counted in units, does not part a pair: it is not between a high surrogate and a low one.
/// A place at an end or past it parts none.
pub fn is_whole(units: &[u16], at: usize) -> bool
    ensures { result ≡ not (parts_pair units.now at) }
{
    !is_pair(unit_before(units, at), unit_at(units, at))
}

/// The place of the first surrogate that is in no pair.
pub fn first_lone(units: &[u16]) -> Option<usize>
    ensures found { IfSome result (λ at. IsFirstLone units.now at) }
    ensures none { IsNone result → HasNoLone units.now }
{
    if !has_surrogate(units) {
        return None;
    }
    for i in 0..units.len() {
        if is_lone_at(units, i) {
            return Some(i);
        }
    }
    None
}

/// Whether some unit is a surrogate. Most texts have none. It reads every unit and leaves the loop at none, so that the
/// compiler can test many at once.
fn has_surrogate(units: &[u16]) -> bool
    ensures { result ≡ false → HasNoSurrogate units.now }
{
    let mut any = false;
    for unit in units {
        any |= is_surrogate(*unit);
    }
    any
}

/// Whether the unit at `i` is a surrogate in no pair.
fn is_lone_at(units: &[u16], i: usize) -> bool
    requires { i < length units.now }
    ensures { result ≡ is_lone_at units.now i }
{
    let unit = unit_at(units, i);
    (is_high(unit) || is_low(unit))
        && !is_pair(unit_before(units, i), unit)
        && !is_pair(unit, unit_at(units, i + 1))
}

/// The unit at `at`, or 0 past the end.
fn unit_at(units: &[u16], at: usize) -> u16
    ensures { result ≡ slice_index units.now at }
{
    if at < units.len() { units[at] } else { 0 }
}

/// The unit before the place `at`, or 0 where there is none.
fn unit_before(units: &[u16], at: usize) -> u16
    ensures { result ≡ unit_before units.now at }
{
    match at.checked_sub(1) {
        Some(i) => unit_at(units, i),
        None => 0,
    }
}

fn is_pair(first: u16, second: u16) -> bool
    ensures { result ≡ is_pair first second }
{
    is_high(first) && is_low(second)
}

/// The one or the other unit of a pair.
fn is_surrogate(unit: u16) -> bool
    ensures { result ≡ (is_high_surrogate unit || is_low_surrogate unit) }
{
    0xD800 <= unit && unit < 0xE000
}

/// The first unit of a pair.
fn is_high(unit: u16) -> bool
    ensures { result ≡ is_high_surrogate unit }
{
    0xD800 <= unit && unit < 0xDC00
}

/// The second unit of a pair.
fn is_low(unit: u16) -> bool
    ensures { result ≡ is_low_surrogate unit }
{
    0xDC00 <= unit && unit < 0xE000
}
