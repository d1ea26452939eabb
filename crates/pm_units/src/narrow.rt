//! Units below 128 as bytes, and back.
ghost use Rattle.std.specs.Prelude.{◌≡◌, ◌<◌, length, IfOk, true};
ghost use Rattle.std.specs.Str.{IsAscii};

use std::alloc::{AllocError, Global};

/// Whether each unit is below 128. It reads every unit and leaves the loop at none, so that the compiler can test many at
/// once.
pub(crate) fn is_plain(units: &[u16]) -> bool
    ensures { result ≡ true → IsAscii units.now }
{
    let mut any = false;
    for unit in units {
        any |= *unit >= 128;
    }
    !any
}

/// The units as bytes.
pub(crate) fn narrowed(alloc: Global, units: &[u16]) -> Result<Vec<u8>, AllocError>
    requires { IsAscii units.now }
    ensures { IfOk result (λ v. v.items ≡ units.now) }
{
    let mut bytes = vec![in alloc; 0_u8; units.len()]?;
    narrow(units, bytes.as_mut_slice());
    Ok(bytes)
}

/// Writes each unit as a byte.
fn narrow(units: &[u16], bytes: &mut [u8])
    requires ascii { IsAscii units.now }
    requires size { length bytes.old ≡ length units.now }
    ensures { bytes.new ≡ units.now }
{
    for i in 0..units.len() {
        bytes[i] = units[i] as u8;
    }
}

/// The bytes as units, each written once.
pub(crate) fn widened(alloc: Global, bytes: &[u8]) -> Result<Vec<u16>, AllocError>
    ensures { IfOk result (λ v. v.items ≡ bytes.now) }
{
    bytes.iter().map(|byte| u16::from(*byte)).collect(alloc)
}
