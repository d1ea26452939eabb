//! Packing: the house behind the lines of one file comes into another, without what was closed or let go.
ghost use Rattle.std.specs.Prelude.{◌≡◌, ◌⊎◌, IsTrue, string_bytes};
ghost use Rattle.sqlite_disk.specs.Disk.{Only};
ghost use Rattle.pm_house.specs.Keeping.{house_meaning, resumed_text};
ghost use Rattle.pm_live.specs.Keeping.{IsUntouched, LeavesSome};
ghost use Rattle.pm_live.specs.Packing.{pack_number_of, PacksAs, NotOpenedToPack, OpenedToPack, SaysPacked, EndsAs};

use crate::filling::{Filled, Filling, fill};
use crate::keeping::{FileStatus, status_of_error};
use pm_house::{House, LimitedHouse};
use pm_io::{Sink, WriteFault, write_all};
use pm_journal::is_blank;
use pm_kept::{OpenError, Opened, open};
use pm_serve::LineReader;
use sqlite_disk::Disk;
use std::alloc::Global;

/// How packing ended.
#[derive(Clone, Copy, Debug, PartialEq, Eq)]
pub enum PackStatus {
    /// The same house stands behind the lines of NEW, and what it has was written.
    Packed,
    /// The same house stands behind the lines of NEW. What it has could not be written.
    WriteFault,
    /// There was no memory. NEW may have some lines.
    NoMemory,
    /// A call of the disk of NEW failed, as on a full one. NEW may have some lines.
    DiskFault,
    /// NEW has bytes. It is as it was.
    FileIsThere,
    /// The lines that were made did not give the house again: behind those of NEW another one stands.
    NotPacked,
    /// No house stands behind the lines of OLD, for this reason. NEW is as it was.
    NotOpened(FileStatus),
}

impl PackStatus {
    /// The number with which the program ends.
    pub fn number(self) -> u8
        ensures { result ≡ pack_number_of self }
    {
        match self {
            PackStatus::Packed => 0,
            PackStatus::WriteFault => 4,
            PackStatus::NoMemory => 5,
            PackStatus::DiskFault => 6,
            PackStatus::FileIsThere => 7,
            PackStatus::NotPacked => 10,
            PackStatus::NotOpened(status) => status.number(),
        }
    }
}

/// How packing ended, and the two files.
#[derive(Drop)]
pub struct PackEnded<O: Disk, N: Disk> {
    pub status: PackStatus,
    pub from: O,
    pub into: N,
}

/// Stands behind the lines of the file OLD, which is `from`, writes into the file NEW, which is `into` and is to be empty, lines behind
/// which the same house stands, and says what the house has. Nothing is written to OLD.
pub fn run_pack<W: Sink, O: Disk, N: Disk>(
    alloc: Global,
    from: O,
    into: N,
    sink: &mut W,
) -> PackEnded<O, N>
    requires from_usable { IsTrue (O.Disk.is_usable from) }
    requires into_usable { IsTrue (N.Disk.is_usable into) }
    // After a restart, what is read of NEW is what is on the disk.
    requires durable { IsTrue (N.Disk.is_clean into) → Only (N.Disk.seen into) (N.Disk.may_leave into) }
    // No house stands behind the lines of OLD, with the cause; or one does. Then it was said that it is packed only where a house stands
    // behind the lines of NEW that is the same, all of it on the disk; else there is the cause.
    ensures output { NotOpenedToPack O.Disk.seen O.Disk.is_clean O.Disk.faults N.Disk.seen N.Disk.may_leave N.Disk.is_clean N.Disk.faults result.status from result.from into result.into (W.written sink.old) (W.written sink.new) (W.faults sink.old) (W.faults sink.new)
        ⊎ OpenedToPack O.Disk.seen O.Disk.is_clean O.Disk.faults N.Disk.seen N.Disk.may_leave N.Disk.is_clean N.Disk.faults result.status from result.from into result.into (W.written sink.old) (W.written sink.new) (W.faults sink.old) (W.faults sink.new) }
    // OLD is as it was.
    ensures untouched { IsUntouched O.Disk.seen O.Disk.may_leave from result.from }
    // Whatever stops, a crash leaves NEW with a house behind its lines, or as it was.
    ensures again { IsUntouched N.Disk.seen N.Disk.may_leave into result.into ⊎ LeavesSome house_meaning N.Disk.may_leave N.Disk.is_clean result.into }
{
    let mut from = from;
    let opened: Result<Opened<LimitedHouse>, OpenError> = open(alloc, &mut from);
    match opened {
        Ok(opened) => {
            let PackedFile { status, disk } = pack(alloc, &opened.service.house, into, sink);
            PackEnded {
                status,
                from,
                into: disk,
            }
        }
        Err(error) => PackEnded {
            status: PackStatus::NotOpened(status_of_error(error)),
            from,
            into,
        },
    }
}

/// How packing into a file ended, and the file.
#[derive(Drop)]
struct PackedFile<D: Disk> {
    status: PackStatus,
    disk: D,
}

/// Writes the house into the file, which is to be empty, and says what it has.
fn pack<W: Sink, D: Disk>(alloc: Global, house: &House, disk: D, sink: &mut W) -> PackedFile<D>
    requires usable { IsTrue (D.Disk.is_usable disk) }
    requires durable { IsTrue (D.Disk.is_clean disk) → Only (D.Disk.seen disk) (D.Disk.may_leave disk) }
    ensures packs { PacksAs D.Disk.seen D.Disk.may_leave D.Disk.is_clean D.Disk.faults result.status house.now disk result.disk (W.written sink.old) (W.written sink.new) (W.faults sink.old) (W.faults sink.new) }
    ensures again { IsUntouched D.Disk.seen D.Disk.may_leave disk result.disk ⊎ LeavesSome house_meaning D.Disk.may_leave D.Disk.is_clean result.disk }
{
    let mut disk = disk;
    match is_blank(&mut disk) {
        Ok(true) => {}
        Ok(false) => {
            return PackedFile {
                status: PackStatus::FileIsThere,
                disk,
            };
        }
        Err(_) => {
            return PackedFile {
                status: PackStatus::DiskFault,
                disk,
            };
        }
    }
    let (Ok(lines), Ok(text)) = (LineReader::new(alloc), house.statistics(alloc)) else {
        return PackedFile {
            status: PackStatus::NoMemory,
            disk,
        };
    };
    let Filled { filling, disk } = fill(alloc, house, disk, lines);
    PackedFile {
        status: end(filling, text.as_bytes(), sink),
        disk,
    }
}

/// How packing ends where this became of the file. What the house has is written where it is packed.
fn end<W: Sink>(filling: Filling, text: &[u8], sink: &mut W) -> PackStatus
    ensures { EndsAs filling text.now result (W.written sink.old) (W.written sink.new) (W.faults sink.old) (W.faults sink.new) }
{
    match filling {
        Filling::Same => say(text, sink),
        Filling::Other => PackStatus::NotPacked,
        Filling::DiskFault => PackStatus::DiskFault,
        Filling::NoMemory => PackStatus::NoMemory,
    }
}

/// Writes what the house has, where the file is packed.
fn say<W: Sink>(text: &[u8], sink: &mut W) -> PackStatus
    ensures { SaysPacked text.now result (W.written sink.old) (W.written sink.new) (W.faults sink.old) (W.faults sink.new) }
{
    match write_all(sink, text) {
        Ok(()) => PackStatus::Packed,
        Err(WriteFault) => PackStatus::WriteFault,
    }
}
