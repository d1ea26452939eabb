//! Versions of the log.
ghost use Rattle.std.specs.Prelude.{◌≡◌, ◌+◌, ◌<◌, ◌^◌, IfOk, OnOk};

use std::alloc::AllocError;

/// The version after so many steps more. Past 2^64 - 1 there is none, and it answers as out of memory does.
pub fn version_after(version: u64, steps: u64) -> Result<u64, AllocError>
    ensures sum { IfOk result (λ v. v ≡ version + steps) }
    ensures short { OnOk result (version + steps < 2 ^ 64) }
{
    version.checked_add(steps).ok_or(AllocError)
}
