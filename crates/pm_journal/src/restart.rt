//! A machine that stops and comes back.
ghost use Rattle.std.specs.Prelude.{◌≤◌, List, ℕ, length, map, All, IsTrue, IfOk};
ghost use Rattle.sqlite_disk.specs.Fuse.{inner_of};
ghost use Rattle.pm_journal.specs.Lines.{recorded, IsLine, HasFirst};
ghost use Rattle.pm_journal.specs.Journal.{IsOpen};

use crate::errors::RecoverError;
use crate::journal::Journal;
use crate::recovery::recover;
use sqlite_disk::{Crash, Disk, Fuse};
use std::alloc::Global;

impl<D: Disk> Journal<D> {
    /// Adds lines one after another, up to the first that fails, and says how many are acknowledged.
    pub fn append_each(&mut self, lines: &[Vec<u8>]) -> usize
        requires open { IsOpen D.Disk.seen D.Disk.may_leave D.Disk.is_clean D.Disk.is_usable self.old }
        requires lines { All (λ line. IsLine line.items) lines.now }
        ensures told { result ≤ length lines.now }
        // A crash leaves the lines from before the call and those that are acknowledged, and maybe the next, in order.
        ensures crash { IsTrue (D.Disk.is_clean self.new.disk) → (c : List ℕ) → D.Disk.may_leave self.new.disk c →
            HasFirst (recorded (D.Disk.seen self.old.disk)) (map (λ line. line.items) lines.now) result (recorded c) }
        ensures clean { IsTrue (D.Disk.is_clean self.new.disk) → IsTrue (D.Disk.is_clean self.old.disk) }
    {
        let mut told = 0;
        for line in lines {
            match self.append(line) {
                Ok(()) => told += 1,
                Err(_) => return told,
            }
        }
        told
    }
}

/// What a machine knows that stopped and came back.
#[derive(Drop)]
pub struct Restarted<D: Crash> {
    pub disk: Fuse<D>,
    /// How many lines were acknowledged before.
    pub told: usize,
    /// The lines that were found.
    pub lines: Vec<Vec<u8>>,
}

/// Adds lines on a machine that stops at this call of its disk, starts it again, and reads the lines of the file. It is a theorem
/// over every such call, and no program needs it.
pub fn stopped_and_restarted<D: Crash + Drop>(
    alloc: Global,
    journal: Journal<D>,
    lines: &[Vec<u8>],
    calls: u64,
) -> Result<Restarted<D>, RecoverError>
    requires open { IsOpen D.Disk.seen D.Disk.may_leave D.Disk.is_clean D.Disk.is_usable journal }
    requires lines { All (λ line. IsLine line.items) lines.now }
    // Each line that was acknowledged is found, in order, and maybe the one behind them.
    ensures { IfOk result (λ r. IsTrue (D.Disk.is_clean (inner_of r.disk)) →
        HasFirst (recorded (D.Disk.seen journal.disk)) (map (λ line. line.items) lines.now) r.told (map (λ line. line.items) r.lines.items)) }
{
    let Journal { disk, end } = journal;
    let mut running = Journal {
        disk: Fuse::new(disk, calls),
        end,
    };
    let told = running.append_each(lines);
    let Journal { mut disk, .. } = running;
    disk.crash();
    let found = recover(alloc, &mut disk)?;
    Ok(Restarted {
        disk,
        told,
        lines: found.lines,
    })
}
