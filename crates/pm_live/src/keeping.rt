//! The calls over a file: what a talk or a house accepts is on the disk before it is answered.
ghost use Rattle.std.specs.Prelude.{◌≡◌, ◌⊎◌, [], false, IsTrue};
ghost use Rattle.sqlite_disk.specs.Disk.{Only};
ghost use Rattle.pm_kept.specs.Behind.{KeepsSome};
ghost use Rattle.pm_kept.specs.Kept.{IsGoodKept, accepted};
ghost use Rattle.pm_kept.specs.Laws.{AllReopen};
ghost use Rattle.pm_live.specs.Keeping.{file_status_of, error_status_of, file_number_of, LeavesSome, IsUntouched, TakesUp, KeptTalked, NotBegun, Begun, NotOpened, NotSaid, Resumed};

use crate::status::{Status, status_of};
use pm_io::{Sink, write_all};
use pm_journal::{RecoverError, is_blank};
use pm_kept::{Keepable, Kept, OpenError, Opened, open, serve_kept};
use pm_serve::{LineReader, Piecewise, Served};
use sqlite_disk::Disk;
use std::alloc::Global;

/// How a call over a file ended.
#[derive(Clone, Copy, Debug, PartialEq, Eq)]
pub enum FileStatus {
    /// As without a file.
    Served(Status),
    /// A call of the disk failed, as on a full one. What was told as accepted before is on the disk.
    DiskFault,
    /// The file of `new` has bytes. Nothing was read from the source or written.
    FileIsThere,
    /// The file of `open` has no line, or no closed gate behind its lines, or that of a talk no document. Nothing was written to it.
    NotOurs,
    /// This line of the file of `open`, counted from 1, is not accepted. Nothing was written to it.
    NotAccepted(usize),
}

impl FileStatus {
    /// The number with which the program ends.
    pub fn number(self) -> u8
        ensures { result ≡ file_number_of self }
    {
        match self {
            FileStatus::Served(status) => status.number(),
            FileStatus::DiskFault => 6,
            FileStatus::FileIsThere => 7,
            FileStatus::NotOurs | FileStatus::NotAccepted(_) => 9,
        }
    }
}

/// How a call over a file ended, and the file.
#[derive(Drop)]
pub struct Ended<D: Disk> {
    pub status: FileStatus,
    pub disk: D,
}

/// Answers the lines of the source by a service that begins, with this limit of work in tokens. The file, which is to be empty, gets
/// each line that is accepted before it is answered; a talk's lines 1 and 2 come together. Lines that wait together come into the file
/// together.
pub fn run_new<S: Keepable, R: Piecewise, W: Sink, D: Disk>(
    alloc: Global,
    disk: D,
    limit: Option<u64>,
    source: &mut R,
    sink: &mut W,
) -> Ended<D>
    requires usable { IsTrue (D.Disk.is_usable disk) }
    // After a restart, what is read is what is on the disk.
    requires durable { IsTrue (D.Disk.is_clean disk) → Only (D.Disk.seen disk) (D.Disk.may_leave disk) }
    // The file is as it was, with the cause; or it was empty, what was written is the answers, and of the lines those that were
    // accepted are on the disk: each whose answer was begun, and at most those of one more group.
    ensures output { NotBegun S.means D.Disk.seen D.Disk.may_leave D.Disk.is_clean D.Disk.is_usable D.Disk.faults result.status disk result.disk (R.left source.old) (R.left source.new) (W.written sink.old) (W.written sink.new) (R.faults source.old) (R.faults source.new) (W.faults sink.old) (W.faults sink.new)
        ⊎ Begun S.means D.Disk.seen D.Disk.may_leave D.Disk.is_clean D.Disk.is_usable D.Disk.faults limit result.status disk result.disk (R.left source.old) (R.left source.new) (W.written sink.old) (W.written sink.new) (R.faults source.old) (R.faults source.new) (W.faults sink.old) (W.faults sink.new) }
    // Whatever stops, a crash leaves a file with a service behind its lines, or as it was.
    ensures again { IsUntouched D.Disk.seen D.Disk.may_leave disk result.disk ⊎ LeavesSome S.means D.Disk.may_leave D.Disk.is_clean result.disk }
{
    let mut disk = disk;
    match is_blank(&mut disk) {
        Ok(true) => {}
        Ok(false) => {
            return Ended {
                status: FileStatus::FileIsThere,
                disk,
            };
        }
        Err(_) => {
            return Ended {
                status: FileStatus::DiskFault,
                disk,
            };
        }
    }
    let Ok(lines) = LineReader::new(alloc) else {
        return Ended {
            status: FileStatus::Served(Status::NoMemory),
            disk,
        };
    };
    let kept: Kept<S, D> = Kept::new(alloc, disk, limit);
    keep(alloc, kept, lines, source, sink)
}

/// Stands behind the lines of the file, says so, and answers the lines of the source, with this limit of work in tokens. The file gets
/// each line that is accepted.
pub fn run_open<S: Keepable, R: Piecewise, W: Sink, D: Disk>(
    alloc: Global,
    disk: D,
    limit: Option<u64>,
    source: &mut R,
    sink: &mut W,
) -> Ended<D>
    requires usable { IsTrue (D.Disk.is_usable disk) }
    // After a restart, what is read is what is on the disk.
    requires durable { IsTrue (D.Disk.is_clean disk) → Only (D.Disk.seen disk) (D.Disk.may_leave disk) }
    // The file is as it was, with the cause; or a service stands behind its lines, what was written is that it does, and the answers,
    // and the file has the lines from before and those that were accepted: each whose answer was begun, and at most those of one
    // more group.
    ensures output { NotOpened S.means D.Disk.seen D.Disk.may_leave D.Disk.is_clean D.Disk.is_usable D.Disk.faults result.status disk result.disk (R.left source.old) (R.left source.new) (W.written sink.old) (W.written sink.new) (R.faults source.old) (R.faults source.new) (W.faults sink.old) (W.faults sink.new)
        ⊎ (NotSaid S.means D.Disk.seen D.Disk.may_leave D.Disk.is_clean D.Disk.is_usable D.Disk.faults result.status disk result.disk (R.left source.old) (R.left source.new) (W.written sink.old) (W.written sink.new) (R.faults source.old) (R.faults source.new) (W.faults sink.old) (W.faults sink.new)
        ⊎ Resumed S.means D.Disk.seen D.Disk.may_leave D.Disk.is_clean D.Disk.is_usable D.Disk.faults limit result.status disk result.disk (R.left source.old) (R.left source.new) (W.written sink.old) (W.written sink.new) (R.faults source.old) (R.faults source.new) (W.faults sink.old) (W.faults sink.new)) }
    // Whatever stops, a crash leaves a file with a service behind its lines, or as it was.
    ensures again { IsUntouched D.Disk.seen D.Disk.may_leave disk result.disk ⊎ LeavesSome S.means D.Disk.may_leave D.Disk.is_clean result.disk }
    // Where a service's own lines are always accepted again, as a talk's are, a file that a crash may leave is taken up.
    ensures reopens { AllReopen S.means → IsTrue (D.Disk.is_clean result.disk) → KeepsSome S.means (D.Disk.seen disk) → TakesUp result.status (D.Disk.seen disk) }
{
    let mut disk = disk;
    let opened: Opened<S> = match open(alloc, &mut disk) {
        Ok(opened) => opened,
        Err(error) => {
            return Ended {
                status: status_of_error(error),
                disk,
            };
        }
    };
    let (Ok(lines), Ok(text)) = (LineReader::new(alloc), opened.service.resumed_text(alloc)) else {
        return Ended {
            status: FileStatus::Served(Status::NoMemory),
            disk,
        };
    };
    if write_all(sink, text.as_bytes()).is_err() {
        return Ended {
            status: FileStatus::Served(Status::WriteFault),
            disk,
        };
    }
    let kept = Kept::resume(disk, opened, limit);
    keep(alloc, kept, lines, source, sink)
}

/// The status where no service stands behind a file.
pub(crate) fn status_of_error(error: OpenError) -> FileStatus
    ensures { result ≡ error_status_of error }
{
    match error {
        OpenError::Unread(RecoverError::Failed(_)) => FileStatus::DiskFault,
        OpenError::Unread(RecoverError::Memory) | OpenError::Memory => {
            FileStatus::Served(Status::NoMemory)
        }
        OpenError::Unread(RecoverError::Broken) | OpenError::NoDocument => FileStatus::NotOurs,
        OpenError::NotAccepted(line) => FileStatus::NotAccepted(line),
    }
}

/// Answers the lines of the source, over a file that is in step.
fn keep<S: Keepable, R: Piecewise, W: Sink, D: Disk>(
    alloc: Global,
    kept: Kept<S, D>,
    lines: LineReader,
    source: &mut R,
    sink: &mut W,
) -> Ended<D>
    requires good { IsGoodKept S.means D.Disk.seen D.Disk.may_leave D.Disk.is_clean D.Disk.is_usable kept }
    requires up { kept.failed ≡ false }
    requires unread { lines.unread ≡ [] }
    ensures talked { KeptTalked S.means D.Disk.seen D.Disk.may_leave D.Disk.is_clean D.Disk.is_usable D.Disk.faults result.status kept.service (accepted D.Disk.seen kept) kept.journal.disk result.disk (R.left source.old) (R.left source.new) (W.written sink.old) (W.written sink.new) (R.faults source.old) (R.faults source.new) (W.faults sink.old) (W.faults sink.new) }
    ensures again { LeavesSome S.means D.Disk.may_leave D.Disk.is_clean result.disk }
{
    let mut kept = kept;
    let mut lines = lines;
    let served = serve_kept(alloc, &mut kept, &mut lines, source, sink);
    let status = status_of_kept(served, kept.service.is_begun(), kept.failed);
    let Kept { journal, .. } = kept;
    Ended {
        status,
        disk: journal.disk,
    }
}

/// The status that says how serving ended, by whether the service had begun, and whether a call of the disk failed.
fn status_of_kept(served: Served, is_begun: bool, failed: bool) -> FileStatus
    ensures { result ≡ file_status_of served is_begun failed }
{
    if failed {
        FileStatus::DiskFault
    } else {
        FileStatus::Served(status_of(served, is_begun))
    }
}
