//! One line after another.
ghost use Rattle.std.specs.Prelude.{◌≡◌, ◌⊎◌};
ghost use Rattle.pm_io.specs.Faults.{Rose};
ghost use Rattle.pm_serve.specs.Pieces.{AskedInTime};
ghost use Rattle.pm_serve.specs.Serves.{Steps, Serves, StepFaults, ServeFaults};

use crate::piecewise::Piecewise;
use crate::reader::{Came, LineReader};
use crate::service::{Reply, Service};
use crate::unread::Kept;
use pm_io::{Sink, WriteFault, write_all};
use std::alloc::{AllocError, Global};

/// How serving ended.
#[derive(Clone, Copy, Debug, PartialEq, Eq)]
pub enum Served {
    /// All lines were answered, to the end of input.
    End,
    /// The service answers no further line.
    Closed,
    /// A read failed. The lines that came whole were answered.
    ReadFault,
    /// A write failed. A front of the answers was written.
    WriteFault,
    /// There were 2^64 - 1 lines, or as many reads within a line, so as many bytes at least. The lines that came whole were
    /// answered.
    Spent,
}

/// How it goes on after a line.
#[derive(Clone, Copy, Debug, PartialEq, Eq)]
pub enum Next {
    /// The line was answered, and more may come.
    More,
    /// It is over.
    Over(Served),
}

/// Answers one line after another. A line for which there is no memory is answered by `Service::no_memory`, and changes nothing.
pub fn serve<S: Service, R: Piecewise, W: Sink>(
    alloc: Global,
    service: &mut S,
    lines: &mut LineReader,
    source: &mut R,
    sink: &mut W,
) -> Served
    requires { S.good service.old }
    ensures serves { Serves S.replies S.last S.no_memory result service.old service.new (R.left source.old) (R.left source.new) lines.old.unread lines.new.unread (W.written sink.old) (W.written sink.new) }
    ensures good { S.good service.new }
    ensures faults { ServeFaults result (R.faults source.old) (R.faults source.new) (W.faults sink.old) (W.faults sink.new) }
{
    for _count in 0..u64::MAX {
        match serve_next(alloc, service, lines, source, sink) {
            Next::More => {}
            Next::Over(served) => return served,
        }
    }
    Served::Spent
}

/// Reads a line and writes its answer. The source is asked for bytes only while no whole line is there, so not between the line
/// and its answer, and not after the answer. A line for which there is no memory is answered by `Service::no_memory`, and changes
/// nothing.
pub fn serve_next<S: Service, R: Piecewise, W: Sink>(
    alloc: Global,
    service: &mut S,
    lines: &mut LineReader,
    source: &mut R,
    sink: &mut W,
) -> Next
    requires { S.good service.old }
    ensures steps { Steps S.replies S.last S.no_memory result service.old service.new (R.left source.old) (R.left source.new) lines.old.unread lines.new.unread (W.written sink.old) (W.written sink.new) }
    ensures good { S.good service.new }
    ensures faults { StepFaults result (R.faults source.old) (R.faults source.new) (W.faults sink.old) (W.faults sink.new) }
    // Each read was made while no whole line was there.
    ensures in_time { AskedInTime lines.old.unread (R.pieces source.old) (R.pieces source.new) }
{
    match lines.next(source) {
        Came::Line => match answer(alloc, service, &lines.line, sink) {
            Wrote::More => Next::More,
            Wrote::Closed => Next::Over(Served::Closed),
            Wrote::Fault => Next::Over(Served::WriteFault),
        },
        Came::Last => match answer(alloc, service, &lines.line, sink) {
            Wrote::More => Next::Over(say_last(service, sink)),
            Wrote::Closed => Next::Over(Served::Closed),
            Wrote::Fault => Next::Over(Served::WriteFault),
        },
        Came::End => Next::Over(say_last(service, sink)),
        Came::Failed => Next::Over(Served::ReadFault),
        Came::Spent => Next::Over(Served::Spent),
    }
}

/// What came of an answer.
#[derive(Clone, Copy, Debug, PartialEq, Eq)]
enum Wrote {
    /// It was written, and further lines are answered.
    More,
    /// It was written, and is the last.
    Closed,
    /// A write failed.
    Fault,
}

ghost use Rattle.pm_serve.specs.Serves.{Writes, WriteFaults, SaysLast, LastFaults};

/// Writes the answer to a line.
fn answer<S: Service, W: Sink>(alloc: Global, service: &mut S, line: &Kept, sink: &mut W) -> Wrote
    requires { S.good service.old }
    ensures writes { Writes S.replies S.last S.no_memory result service.old service.new line.now (W.written sink.old) (W.written sink.new) }
    ensures good { S.good service.new }
    ensures faults { WriteFaults result (W.faults sink.old) (W.faults sink.new) }
{
    match service.reply(alloc, line.bytes()) {
        Ok(reply) => {
            let Reply { text, more } = reply;
            match write_all(sink, text.as_bytes()) {
                Ok(()) => if more { Wrote::More } else { Wrote::Closed },
                Err(WriteFault) => Wrote::Fault,
            }
        }
        Err(AllocError) => match write_all(sink, service.no_memory()) {
            Ok(()) => Wrote::More,
            Err(WriteFault) => Wrote::Fault,
        },
    }
}

/// Writes what the service says at the end of input.
fn say_last<S: Service, W: Sink>(service: &S, sink: &mut W) -> Served
    ensures says { SaysLast (S.last service.now) result (W.written sink.old) (W.written sink.new) }
    ensures faults { LastFaults result (W.faults sink.old) (W.faults sink.new) }
{
    match write_all(sink, service.last()) {
        Ok(()) => Served::End,
        Err(WriteFault) => Served::WriteFault,
    }
}
