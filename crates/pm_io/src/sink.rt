/// What one write took.
#[derive(Clone, Copy, Debug, PartialEq, Eq)]
pub enum Put {
    /// So many bytes, from the front of the piece.
    /// None, of a piece that isn't empty, is a fault too.
    Took(usize),
    /// A fault. No byte was taken, and the sink's count of faults rose.
    Failed,
}

/// Where bytes go to. Its meanings are what was written and a count of faults that never falls.
/// A sink may stop telling what was written; from then on it tells nothing.
pub trait Sink {
    ghost use Rattle.std.specs.Prelude.{List, ℕ, length, Option};
    ghost use Rattle.pm_io.specs.Moves.{FitsPiece, Takes, WriteCounts};

    // The bytes that were written, as long as the sink tells them.
    ghost written: { Self → Option (List ℕ) };

    // How often a write failed, or took no byte of a piece that isn't empty.
    ghost faults: { Self → ℕ };

    /// Appends bytes from the front of the piece to what was written, at most as many bytes as
    /// the piece has. `Failed` comes only where the count of faults rose in this call.
    fn write(&mut self, from: &[u8]) -> Put
        ensures room { FitsPiece result (length from.now) }
        ensures bytes { Takes result (written self.old) (written self.new) from.now }
        ensures cause { WriteCounts result from.now (faults self.old) (faults self.new) };
}
