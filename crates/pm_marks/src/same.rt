//! What the attributes of a mark must be able to do.
ghost use Rattle.std.specs.Prelude.{◌≡◌, ◌↔◌, Bool, true, IfOk};

use std::alloc::{AllocError, Global};

/// Values that can be compared and copied.
pub trait Same: Sized + Drop {
    ghost equal: { Self → Self → Bool };

    /// Whether this value and `other` are equal. It takes no memory.
    fn same(&self, other: &Self) -> bool
        ensures { result ≡ equal self.now other.now };

    /// A value equal to this one.
    fn copy(&self, alloc: Global) -> Result<Self, AllocError>
        ensures { IfOk result (λ c. c ≡ self.now) };

    // Below the last method, so that it is a law, which each implementation has to prove.
    ghost is_equality: { (x y : Self) → (equal x y ≡ true) ↔ (x ≡ y) };
}
