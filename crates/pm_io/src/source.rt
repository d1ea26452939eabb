/// What one read gave.
#[derive(Clone, Copy, Debug, PartialEq, Eq)]
pub enum Got {
    /// So many bytes, which stand at the front of the buffer.
    /// None, for a buffer that isn't empty, is the end of input.
    Bytes(usize),
    /// The end of input: no byte is left.
    End,
    /// A fault. No byte was taken, and the source's count of faults rose.
    Failed,
}

/// Where bytes come from. Its meanings are what is left and a count of faults that never falls.
pub trait Source {
    ghost use Rattle.std.specs.Prelude.{List, ℕ, length, Option};
    ghost use Rattle.pm_io.specs.Moves.{FitsBuffer, Gives, ReadCounts};

    // The bytes that are left, where the source tells them.
    ghost left: { Self → Option (List ℕ) };

    // How often a read failed.
    ghost faults: { Self → ℕ };

    /// Moves bytes from the front of what is left to the front of the buffer, at most as many
    /// bytes as the buffer has. `Failed` comes only where the count of faults rose in this call.
    fn read(&mut self, into: &mut [u8]) -> Got
        ensures room { FitsBuffer result (length into.new) }
        ensures bytes { Gives result (left self.old) (left self.new) into.new }
        ensures cause { ReadCounts result (faults self.old) (faults self.new) };
}
