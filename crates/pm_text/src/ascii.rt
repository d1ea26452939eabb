//! Texts of ASCII alone: their bytes are their units.
ghost use Rattle.std.specs.Prelude.{◌≡◌, ◌<◌, length, slice_index, string_bytes, IfOk, true};
ghost use Rattle.std.specs.Str.{IsAscii};

use std::alloc::{AllocError, Global};

/// Whether each unit is below 128. It reads every unit and leaves the loop at none, so that the compiler can test many at
/// once.
pub fn is_plain(units: &[u16]) -> bool
    ensures { result ≡ true → IsAscii units.now }
{
    let mut any = false;
    for unit in units {
        any |= *unit >= 128;
    }
    !any
}

/// The units of a text of these bytes, each written once.
pub fn ascii_units(alloc: Global, bytes: &[u8]) -> Result<Vec<u16>, AllocError>
    ensures { IfOk result (λ v. v.items ≡ bytes.now) }
{
    bytes.iter().map(|byte| u16::from(*byte)).collect(alloc)
}

/// The text of these units.
pub fn ascii_text(alloc: Global, units: &[u16]) -> Result<String, AllocError>
    requires { IsAscii units.now }
    ensures { IfOk result (λ s. string_bytes s ≡ units.now) }
{
    let bytes = ascii_bytes(alloc, units)?;
    match String::from_utf8(bytes) {
        Ok(text) => Ok(text),
        Err(_) => unreachable!(),
    }
}

/// The bytes of the text of these units.
fn ascii_bytes(alloc: Global, units: &[u16]) -> Result<Vec<u8>, AllocError>
    requires { IsAscii units.now }
    ensures { IfOk result (λ v. v.items ≡ units.now) }
{
    let mut bytes = vec![in alloc; 0_u8; units.len()]?;
    narrow(units, bytes.as_mut_slice());
    Ok(bytes)
}

/// Writes each unit as a byte.
fn narrow(units: &[u16], bytes: &mut [u8])
    requires ascii { IsAscii units.now }
    requires size { length bytes.old ≡ length units.now }
    ensures { bytes.new ≡ units.now }
{
    for i in 0..units.len() {
        bytes[i] = units[i] as u8;
    }
}
