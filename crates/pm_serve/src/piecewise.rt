//! A source that tells what each read gave.
use pm_io::{Got, Source, StdSource};
use std::io::Read;

/// A source that is asked for one piece after another. Its meaning is what each read gave, so that a contract can say when a
/// read was made: which bytes had come by then.
pub trait Piecewise: Source {
    ghost use Rattle.std.specs.Prelude.{List, ℕ, ◌∷◌, [], length, Option};
    ghost use Rattle.pm_io.specs.Moves.{FitsBuffer, Gives, ReadCounts};
    ghost use Rattle.pm_serve.specs.Pieces.{Gave, piece_of};

    // What each read gave so far, the oldest first, where the source tells it.
    ghost pieces: { Self → Option (List (List ℕ)) };

    /// Reads once, as `Source::read` does.
    fn read_piece(&mut self, into: &mut [u8]) -> Got
        ensures room { FitsBuffer result (length into.new) }
        ensures bytes { Gives result (Self.left self.old) (Self.left self.new) into.new }
        ensures cause { ReadCounts result (Self.faults self.old) (Self.faults self.new) }
        ensures gave { Gave (pieces self.old) (pieces self.new) (piece_of result into.new ∷ []) };
}

/// A source over a reader of std tells nothing of its pieces.
impl<R: Read> Piecewise for StdSource<R> {
    ghost use Rattle.std.specs.Prelude.{None};

    ghost pieces = { λ _. None };

    fn read_piece(&mut self, into: &mut [u8]) -> Got {
        self.read(into)
    }
}
