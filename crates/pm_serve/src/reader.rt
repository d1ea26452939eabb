//! A reader of lines.
ghost use Rattle.pm_serve.specs.Reads.{Reads, ReadFaults, IsLast, TakesWaiting};
ghost use Rattle.pm_serve.specs.Pieces.{AskedInTime};

use crate::piecewise::Piecewise;
use crate::unread::{Filled, Kept, Passing, Unread};
use std::alloc::{AllocError, Global};

/// What came when a line was asked for.
#[derive(Clone, Copy, Debug, PartialEq, Eq)]
pub enum Came {
    /// A line with its LF.
    Line,
    /// The bytes after the last LF, at the end of input.
    Last,
    /// The end of input, and no byte before it.
    End,
    /// A read failed.
    Failed,
    /// There were 2^64 - 1 reads without an LF, so as many bytes at least.
    Spent,
}

/// Reads lines: the bytes of a source that came and are not yet part of a line, and the line that came last. The source is passed
/// to each call, so that its caller's clauses speak of it.
#[derive(Drop)]
pub struct LineReader {
    pub unread: Unread,
    pub line: Kept,
}

impl LineReader {
    ghost use Rattle.std.specs.Prelude.{◌≡◌, [], IfOk};

    /// No bytes, with room for a piece of input and for a line.
    pub fn new(alloc: Global) -> Result<LineReader, AllocError>
        ensures { IfOk result (λ r. r.unread ≡ []) }
    {
        Ok(LineReader {
            unread: Unread::new(alloc)?,
            line: Kept::new(alloc)?,
        })
    }

    /// Reads the next line, of which `line` then has at most the first `KEPT` bytes, without the LF. The source is asked for more
    /// bytes only while no whole line is there.
    pub fn next<R: Piecewise>(&mut self, source: &mut R) -> Came
        ensures reads { Reads result (R.left source.old) (R.left source.new) self.old.unread self.new.unread self.new.line }
        ensures faults { ReadFaults result (R.faults source.old) (R.faults source.new) }
        // Each read was made while no whole line was there.
        ensures in_time { AskedInTime self.old.unread (R.pieces source.old) (R.pieces source.new) }
    {
        next_line(source, &mut self.unread, &mut self.line)
    }

    /// Takes the next line as `next` does where it is there whole, and says whether it is. Nothing is read.
    pub fn take_waiting(&mut self) -> bool
        ensures { TakesWaiting result self.old.unread self.new.unread self.new.line }
    {
        self.unread.has_line()
            && {
                self.line.clear();
                matches!(self.unread.pass_on(&mut self.line), Passing::Line)
            }
    }
}

/// Reads the next line.
fn next_line<R: Piecewise>(source: &mut R, unread: &mut Unread, line: &mut Kept) -> Came
    ensures reads { Reads result (R.left source.old) (R.left source.new) unread.old unread.new line.new }
    ensures faults { ReadFaults result (R.faults source.old) (R.faults source.new) }
    ensures in_time { AskedInTime unread.old (R.pieces source.old) (R.pieces source.new) }
{
    line.clear();
    for _count in 0..u64::MAX {
        match unread.pass_on(line) {
            Passing::Line => return Came::Line,
            Passing::All => {}
        }
        match unread.fill(source) {
            Filled::Some => {}
            Filled::End => return last_of(line),
            Filled::Failed => return Came::Failed,
        }
    }
    Came::Spent
}

/// What came at the end of input.
fn last_of(line: &Kept) -> Came
    ensures { IsLast result line.now }
{
    if line.bytes().is_empty() {
        Came::End
    } else {
        Came::Last
    }
}
