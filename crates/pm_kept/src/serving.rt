//! A service whose accepted lines are in a file, served.
ghost use Rattle.std.specs.Prelude.{◌≡◌, false};
ghost use Rattle.pm_io.specs.Faults.{Rose};
ghost use Rattle.pm_journal.specs.Lines.{IsLine};
ghost use Rattle.pm_serve.specs.Pieces.{AskedInTime};
ghost use Rattle.pm_serve.specs.Serves.{ServeFaults, StepFaults, SaysLast, LastFaults};
ghost use Rattle.pm_kept.specs.Kept.{disk_fault, IsGoodKept};
ghost use Rattle.pm_kept.specs.Runs.{AnswersAll, WroteFaults, GroupServed, KeptRun, SaysFault};

use crate::answers::Answers;
use crate::hearing::hear_all;
use crate::keepable::Keepable;
use crate::kept::{Kept, disk_fault};
use pm_io::{Sink, WriteFault, write_all};
use pm_serve::{Came, LineReader, Next, Piecewise, Served};
use sqlite_disk::Disk;
use std::alloc::Global;

/// Answers one group of lines after another. Each line that is accepted is on the disk before its answer is written. Where a call of
/// the disk fails that is said, and no further line is answered.
pub fn serve_kept<S: Keepable, R: Piecewise, W: Sink, D: Disk>(
    alloc: Global,
    kept: &mut Kept<S, D>,
    lines: &mut LineReader,
    source: &mut R,
    sink: &mut W,
) -> Served
    requires good { IsGoodKept S.means D.Disk.seen D.Disk.may_leave D.Disk.is_clean D.Disk.is_usable kept.old }
    requires up { kept.old.failed ≡ false }
    ensures run { KeptRun S.means D.Disk.seen D.Disk.may_leave D.Disk.is_clean D.Disk.faults result kept.old kept.new (R.left source.old) (R.left source.new) lines.old.unread lines.new.unread (W.written sink.old) (W.written sink.new) }
    ensures good { IsGoodKept S.means D.Disk.seen D.Disk.may_leave D.Disk.is_clean D.Disk.is_usable kept.new }
    ensures faults { ServeFaults result (R.faults source.old) (R.faults source.new) (W.faults sink.old) (W.faults sink.new) }
{
    for _count in 0..u64::MAX {
        match serve_group(alloc, kept, lines, source, sink) {
            Next::More => {}
            Next::Over(served) => return served,
        }
    }
    Served::Spent
}

/// Reads a line, and takes those that wait behind it already, with no further read. Those that are accepted come into the file at
/// once, with two syncs for all of them, and then the answers are written, in order. So the source is asked for bytes only while no
/// whole line is there and each line that came was answered. Where a call of the disk fails, that is said in place of the answers.
pub fn serve_group<S: Keepable, R: Piecewise, W: Sink, D: Disk>(
    alloc: Global,
    kept: &mut Kept<S, D>,
    lines: &mut LineReader,
    source: &mut R,
    sink: &mut W,
) -> Next
    requires good { IsGoodKept S.means D.Disk.seen D.Disk.may_leave D.Disk.is_clean D.Disk.is_usable kept.old }
    requires up { kept.old.failed ≡ false }
    ensures served { GroupServed S.means D.Disk.seen D.Disk.may_leave D.Disk.is_clean D.Disk.faults result kept.old kept.new (R.left source.old) (R.left source.new) lines.old.unread lines.new.unread (W.written sink.old) (W.written sink.new) }
    ensures good { IsGoodKept S.means D.Disk.seen D.Disk.may_leave D.Disk.is_clean D.Disk.is_usable kept.new }
    ensures faults { StepFaults result (R.faults source.old) (R.faults source.new) (W.faults sink.old) (W.faults sink.new) }
    // Each read was made while no whole line was there.
    ensures in_time { AskedInTime lines.old.unread (R.pieces source.old) (R.pieces source.new) }
{
    match lines.next(source) {
        Came::Line => answer_all(alloc, kept, lines, sink),
        Came::Last => match answer_all(alloc, kept, lines, sink) {
            Next::More => Next::Over(say_last(kept, sink)),
            Next::Over(served) => Next::Over(served),
        },
        Came::End => Next::Over(say_last(kept, sink)),
        Came::Failed => Next::Over(Served::ReadFault),
        Came::Spent => Next::Over(Served::Spent),
    }
}

/// Answers the line that came, and those that wait behind it.
fn answer_all<S: Keepable, W: Sink, D: Disk>(
    alloc: Global,
    kept: &mut Kept<S, D>,
    lines: &mut LineReader,
    sink: &mut W,
) -> Next
    requires good { IsGoodKept S.means D.Disk.seen D.Disk.may_leave D.Disk.is_clean D.Disk.is_usable kept.old }
    requires up { kept.old.failed ≡ false }
    requires line { IsLine lines.old.line }
    ensures answers { AnswersAll S.means D.Disk.seen D.Disk.may_leave D.Disk.is_clean D.Disk.faults result kept.old kept.new lines.old.line lines.old.unread lines.new.unread (W.written sink.old) (W.written sink.new) }
    ensures good { IsGoodKept S.means D.Disk.seen D.Disk.may_leave D.Disk.is_clean D.Disk.is_usable kept.new }
    ensures faults { WroteFaults result (W.faults sink.old) (W.faults sink.new) }
{
    let mut answers = Answers::new(alloc);
    let more = hear_all(
        alloc,
        &mut kept.service,
        &mut kept.held,
        lines,
        &mut answers,
    );
    if !kept.put_held() {
        return Next::Over(say_fault(sink));
    }
    match answers.write(sink) {
        Ok(()) => if more {
            Next::More
        } else {
            Next::Over(Served::Closed)
        },
        Err(WriteFault) => Next::Over(Served::WriteFault),
    }
}

/// Says that a call of the disk failed.
fn say_fault<W: Sink>(sink: &mut W) -> Served
    ensures says { SaysFault result (W.written sink.old) (W.written sink.new) }
    ensures faults { WroteFaults (Next.Over result) (W.faults sink.old) (W.faults sink.new) }
{
    match write_all(sink, disk_fault().as_bytes()) {
        Ok(()) => Served::Closed,
        Err(WriteFault) => Served::WriteFault,
    }
}

/// Writes what is said at the end of input.
fn say_last<S: Keepable, W: Sink, D: Disk>(kept: &Kept<S, D>, sink: &mut W) -> Served
    ensures says { SaysLast (S.means.last kept.now.service) result (W.written sink.old) (W.written sink.new) }
    ensures faults { LastFaults result (W.faults sink.old) (W.faults sink.new) }
{
    match write_all(sink, kept.service.last()) {
        Ok(()) => Served::End,
        Err(WriteFault) => Served::WriteFault,
    }
}
