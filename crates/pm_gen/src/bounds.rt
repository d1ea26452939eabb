//! How large a generated session may be.
ghost use Rattle.std.specs.Prelude.{◌↔◌, IsTrue};
ghost use Rattle.pm_gen.specs.Bounds.{InBounds};

/// The most clients that a session has.
pub const MAX_CLIENTS: u32 = 32;

/// The most op lines that a session has.
pub const MAX_OP_LINES: u32 = 100_000;

/// Whether a session of so many clients and rounds is within its limits. It takes no memory.
pub fn is_in_bounds(clients: u32, rounds: u32) -> bool
    ensures { IsTrue result ↔ InBounds clients rounds }
{
    1 <= clients
        && clients <= MAX_CLIENTS
        && rounds <= MAX_OP_LINES
        && clients * rounds <= MAX_OP_LINES
}
