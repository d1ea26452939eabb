//! The units of a text, and the text of units.
ghost use Rattle.std.specs.Prelude.{◌↔◌, IfOk, OnOk, IsErrOf, string_bytes};
ghost use Rattle.pm_text.specs.Units.{IsOneText};
ghost use Rattle.pm_text.specs.Lone.{HasNoLone, IsFirstLone};

use crate::ascii::{ascii_text, ascii_units, is_plain};
use crate::fault::TextError;
use crate::lone::first_lone;
use std::alloc::{AllocError, Global};

/// The UTF-16 units of a text: one for each character below U+10000, and a pair of surrogates for each other. They
/// spell the text again, and no surrogate among them is outside a pair.
#[tactic(auto, using(crate::proofs::AsciiText::one_text, crate::proofs::AsciiText::none_lone))]
pub fn units_of(alloc: Global, text: &str) -> Result<Vec<u16>, AllocError>
    ensures text { IfOk result (λ v. IsOneText v.items text.now) }
    ensures whole { IfOk result (λ v. HasNoLone v.items) }
{
    if text.is_ascii() {
        ascii_units(alloc, text.as_bytes())
    } else {
        mixed_units(alloc, text)
    }
}

/// The units of a text, one after another.
fn mixed_units(alloc: Global, text: &str) -> Result<Vec<u16>, AllocError>
    ensures text { IfOk result (λ v. IsOneText v.items text.now) }
    ensures whole { IfOk result (λ v. HasNoLone v.items) }
{
    let mut units = Vec::with_capacity(alloc, room_for(text.as_bytes()))?;
    for unit in text.encode_utf16() {
        units.push(unit)?;
    }
    Ok(units)
}

/// How many units a text of these bytes has, for which room is made: no answer depends on it. Each byte that begins a character
/// stands for one, and that of a character above U+FFFF for two.
fn room_for(bytes: &[u8]) -> usize {
    let mut count: usize = 0;
    for byte in bytes {
        let begins = *byte & 0xC0 != 0x80;
        let is_pair = 0xF0 <= *byte;
        count = count.wrapping_add(usize::from(begins));
        count = count.wrapping_add(usize::from(is_pair));
    }
    count
}

/// The text that these UTF-16 units spell. Its units are these again. `Lone` comes exactly where a surrogate is no part
/// of a pair, a high one followed by a low one, and names the place of the first, counted in units.
pub fn text_of(alloc: Global, units: &[u16]) -> Result<String, TextError>
    ensures text { IfOk result (λ s. IsOneText units.now (string_bytes s)) }
    ensures whole { OnOk result (HasNoLone units.now) }
    ensures lone { (at : _) → IsErrOf result (TextError.Lone at) ↔ IsFirstLone units.now at }
{
    if is_plain(units) {
        return Ok(ascii_text(alloc, units)?);
    }
    if let Some(at) = first_lone(units) {
        return Err(TextError::Lone { at });
    }
    let text = String::from_utf16_lossy(alloc, units)?;
    Ok(text)
}
