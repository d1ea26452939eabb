//! Which neighbour a position keeps to.
ghost use Rattle.std.specs.Prelude.{◌≡◌};
ghost use Rattle.pm_map.specs.Moves.{is_before};

/// What a position keeps to: what stands before it, or what stands after it. This is ProseMirror's `assoc`, where `Before` is
/// -1 and `After` is 1. So what is put in right at the position comes after it by `Before`, and before it by `After`.
#[derive(Clone, Copy, Drop, Debug, PartialEq, Eq)]
pub enum Side {
    Before,
    After,
}

impl Side {
    /// Whether this is `Before`.
    pub fn is_before(self) -> bool
        ensures { result ≡ is_before self }
    {
        match self {
            Side::Before => true,
            Side::After => false,
        }
    }
}
