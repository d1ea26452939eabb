ghost use Rattle.std.specs.Io.{WritesAtMost};

use crate::sink::{Put, Sink};
use crate::source::{Got, Source};
use std::io;
use std::io::{Read, Write};

/// A source over a reader of std, which counts the reader's errors. It tells the bytes that its
/// reader tells; standard input tells none.
#[derive(Drop)]
pub struct StdSource<R> {
    reader: R,
    faults: u64,
}

impl<R: Read> StdSource<R> {
    ghost use Rattle.std.specs.Prelude.{◌≡◌};

    /// A source over this reader, with no fault so far.
    pub fn new(reader: R) -> StdSource<R>
        ensures left { ⟦<StdSource<R> as Source>⟧.left result ≡ R.remaining reader }
        ensures faults { ⟦<StdSource<R> as Source>⟧.faults result ≡ 0 }
    {
        StdSource { reader, faults: 0 }
    }
}

impl<R: Read> Source for StdSource<R> {
    ghost left = { λ s. R.remaining s.reader };

    ghost faults = { λ s. s.faults };

    fn read(&mut self, into: &mut [u8]) -> Got {
        match self.reader.read(into) {
            Ok(n) => Got::Bytes(n),
            Err(_) => {
                self.faults = self.faults.saturating_add(1);
                Got::Failed
            }
        }
    }
}

/// A sink over a writer of std, which flushes after each write and counts the errors of both. It
/// tells nothing of its bytes.
#[derive(Drop)]
pub struct StdSink<W> {
    writer: W,
    faults: u64,
}

impl<W: Write> StdSink<W> {
    ghost use Rattle.std.specs.Prelude.{◌≡◌};

    /// A sink over this writer, with no fault so far.
    pub fn new(writer: W) -> StdSink<W>
        ensures { ⟦<StdSink<W> as Sink>⟧.faults result ≡ 0 }
    {
        StdSink { writer, faults: 0 }
    }
}

impl<W: Write> Sink for StdSink<W> {
    ghost use Rattle.std.specs.Prelude.{None};

    ghost written = { λ s. None };

    ghost faults = { λ s. s.faults };

    fn write(&mut self, from: &[u8]) -> Put {
        match write_and_flush(&mut self.writer, from) {
            Ok(n) => {
                if n == 0 && !from.is_empty() {
                    self.faults = self.faults.saturating_add(1);
                }
                Put::Took(n)
            }
            Err(_) => {
                self.faults = self.faults.saturating_add(1);
                Put::Failed
            }
        }
    }
}

/// One write and a flush of it: how many bytes the write took.
fn write_and_flush<W: Write>(writer: &mut W, from: &[u8]) -> io::Result<usize>
    ensures { WritesAtMost result from.now }
{
    let n = writer.write(from)?;
    writer.flush()?;
    Ok(n)
}
