//! An empty file that gets the lines of a house.
ghost use Rattle.std.specs.Prelude.{◌≡◌, [], IsTrue};
ghost use Rattle.sqlite_disk.specs.Disk.{Only};
ghost use Rattle.pm_live.specs.Packing.{FillsAs, JudgedAs};

use crate::house_lines::{HouseLines, Nowhere};
use pm_house::{House, LimitedHouse};
use pm_kept::{Kept, serve_kept};
use pm_serve::LineReader;
use sqlite_disk::Disk;
use std::alloc::{AllocError, Global};

/// What became of an empty file into which the lines of a house were played.
#[derive(Clone, Copy, Debug, PartialEq, Eq)]
pub enum Filling {
    /// The same house stands behind its lines.
    Same,
    /// Another house stands behind its lines.
    Other,
    /// A call of the disk failed, as on a full one.
    DiskFault,
    /// There was no memory.
    NoMemory,
}

/// An empty file into which the lines of a house were played, and what became of it.
#[derive(Drop)]
pub(crate) struct Filled<D: Disk> {
    pub filling: Filling,
    pub disk: D,
}

/// Plays the lines of the house into the file, which is empty: an empty house over it answers them as it answers the lines of any
/// source. Then the two houses are compared.
pub(crate) fn fill<D: Disk>(alloc: Global, house: &House, disk: D, lines: LineReader) -> Filled<D>
    requires usable { IsTrue (D.Disk.is_usable disk) }
    requires empty { IsTrue (D.Disk.is_clean disk) → D.Disk.seen disk ≡ [] }
    // After a restart, what is read is what is on the disk.
    requires durable { IsTrue (D.Disk.is_clean disk) → Only (D.Disk.seen disk) (D.Disk.may_leave disk) }
    ensures { FillsAs D.Disk.seen D.Disk.may_leave D.Disk.is_clean D.Disk.faults result.filling house.now disk result.disk }
{
    let mut kept: Kept<LimitedHouse, D> = Kept::new(alloc, disk, None);
    let mut lines = lines;
    let mut source = HouseLines::new(alloc, house);
    let _served = serve_kept(alloc, &mut kept, &mut lines, &mut source, &mut Nowhere);
    let filling = judge(
        alloc,
        house,
        &kept.service.house,
        kept.failed,
        source.is_whole(),
    );
    let Kept { journal, .. } = kept;
    Filled {
        filling,
        disk: journal.disk,
    }
}

/// What became of the file over which this other house stands, by whether a call of the disk failed, and whether there was memory for
/// each line.
fn judge(alloc: Global, house: &House, next: &House, failed: bool, is_whole: bool) -> Filling
    ensures { JudgedAs result house.now next.now failed }
{
    if failed {
        return Filling::DiskFault;
    }
    if !is_whole {
        return Filling::NoMemory;
    }
    match house.is_same(alloc, next) {
        Ok(true) => Filling::Same,
        Ok(false) => Filling::Other,
        Err(AllocError) => Filling::NoMemory,
    }
}
