//! A journal: lines on a disk.
ghost use Rattle.std.specs.Prelude.{◌≡◌, ◌++◌, ◌+◌, ◌^◌, ◌≤◌, [], ◌∷◌, List, ℕ, length, IsTrue, IfOk, IfErr, OnOk, MatchResult};
ghost use Rattle.sqlite_disk.specs.Disk.{Only};
ghost use Rattle.pm_journal.specs.Lines.{recorded, IsLine, IsBeforeOrAfter, lines_of, HoldsLines};
ghost use Rattle.pm_journal.specs.Journal.{IsReady, IsOpen, IsBlank, TakesLines, IsRecovered, AppendFails};

use crate::errors::AppendError;
use crate::group::{Group, LF, OPEN};
use crate::recovery::Recovered;
use sqlite_disk::Disk;

/// Lines on a disk, and where the closed gate behind them is.
#[derive(Drop)]
pub struct Journal<D: Disk> {
    pub disk: D,
    /// The place of the gate, in bytes.
    pub end: usize,
}

impl<D: Disk> Journal<D> {
    /// A journal over an empty file, which is to begin with `begin`. Nothing is written.
    pub fn blank(disk: D) -> Journal<D>
        requires usable { IsTrue (D.Disk.is_usable disk) }
        requires empty { IsTrue (D.Disk.is_clean disk) → D.Disk.seen disk ≡ [] }
        // After a restart, what is read is what is on the disk.
        requires durable { IsTrue (D.Disk.is_clean disk) → Only (D.Disk.seen disk) (D.Disk.may_leave disk) }
        ensures blank { IsBlank D.Disk.seen D.Disk.may_leave D.Disk.is_clean D.Disk.is_usable result }
        ensures disk { result.disk ≡ disk }
    {
        Journal { disk, end: 0 }
    }

    /// The journal of a file whose lines are recovered. Nothing is written.
    pub fn resume(disk: D, found: &Recovered) -> Journal<D>
        requires usable { IsTrue (D.Disk.is_usable disk) }
        requires found { IsTrue (D.Disk.is_clean disk) → IsRecovered found.now (D.Disk.seen disk) }
        // After a restart, what is read is what is on the disk.
        requires durable { IsTrue (D.Disk.is_clean disk) → Only (D.Disk.seen disk) (D.Disk.may_leave disk) }
        ensures open { IsOpen D.Disk.seen D.Disk.may_leave D.Disk.is_clean D.Disk.is_usable result }
        ensures disk { result.disk ≡ disk }
    {
        Journal {
            disk,
            end: found.end,
        }
    }

    /// Gives an empty file its first lines, all at once. At `Ok` they are on the disk. At `Err` a crash leaves a file of all these
    /// lines or of none.
    pub fn begin(&mut self, group: &Group) -> Result<(), AppendError>
        requires blank { IsBlank D.Disk.seen D.Disk.may_leave D.Disk.is_clean D.Disk.is_usable self.old }
        requires lines { HoldsLines group.now.text.items }
        ensures open { OnOk result (IsOpen D.Disk.seen D.Disk.may_leave D.Disk.is_clean D.Disk.is_usable self.new) }
        ensures added { OnOk result (IsTrue (D.Disk.is_clean self.new.disk) → recorded (D.Disk.seen self.new.disk) ≡ lines_of group.now.text.items) }
        ensures crash { IsTrue (D.Disk.is_clean self.new.disk) → (c : List ℕ) → D.Disk.may_leave self.new.disk c → IsBeforeOrAfter [] (lines_of group.now.text.items) c }
        ensures clean { IsTrue (D.Disk.is_clean self.new.disk) → IsTrue (D.Disk.is_clean self.old.disk) }
        ensures faults { MatchResult result (λ _. D.Disk.faults self.new.disk ≡ D.Disk.faults self.old.disk)
            (λ e. AppendFails e (D.Disk.faults self.old.disk) (D.Disk.faults self.new.disk) (1 + length group.now.text.items)) }
    {
        self.disk.write_at(0, &[LF])?;
        self.disk.sync()?;
        self.add(&group.text)
    }

    /// Adds a line, without memory. At `Ok` it is on the disk: from then on each crash leaves a file that has it. At `Err` a crash
    /// leaves the lines from before, with it or without.
    pub fn append(&mut self, line: &[u8]) -> Result<(), AppendError>
        requires open { IsOpen D.Disk.seen D.Disk.may_leave D.Disk.is_clean D.Disk.is_usable self.old }
        requires line { IsLine line.now }
        ensures open { OnOk result (IsOpen D.Disk.seen D.Disk.may_leave D.Disk.is_clean D.Disk.is_usable self.new) }
        ensures added { OnOk result (IsTrue (D.Disk.is_clean self.new.disk) → recorded (D.Disk.seen self.new.disk) ≡ recorded (D.Disk.seen self.old.disk) ++ line.now ∷ []) }
        ensures crash { IsTrue (D.Disk.is_clean self.new.disk) → (c : List ℕ) → D.Disk.may_leave self.new.disk c → IsBeforeOrAfter (recorded (D.Disk.seen self.old.disk)) (line.now ∷ []) c }
        ensures clean { IsTrue (D.Disk.is_clean self.new.disk) → IsTrue (D.Disk.is_clean self.old.disk) }
        ensures faults { MatchResult result (λ _. D.Disk.faults self.new.disk ≡ D.Disk.faults self.old.disk)
            (λ e. AppendFails e (D.Disk.faults self.old.disk) (D.Disk.faults self.new.disk) (self.old.end + 1 + length line.now)) }
    {
        self.add(line)
    }

    /// Adds lines at once, with two syncs for all of them. At `Ok` they are on the disk. At `Err` a crash leaves the lines from
    /// before, with all of these or with none.
    pub fn append_group(&mut self, group: &Group) -> Result<(), AppendError>
        requires open { IsOpen D.Disk.seen D.Disk.may_leave D.Disk.is_clean D.Disk.is_usable self.old }
        requires lines { HoldsLines group.now.text.items }
        ensures open { OnOk result (IsOpen D.Disk.seen D.Disk.may_leave D.Disk.is_clean D.Disk.is_usable self.new) }
        ensures added { OnOk result (IsTrue (D.Disk.is_clean self.new.disk) → recorded (D.Disk.seen self.new.disk) ≡ recorded (D.Disk.seen self.old.disk) ++ lines_of group.now.text.items) }
        ensures crash { IsTrue (D.Disk.is_clean self.new.disk) → (c : List ℕ) → D.Disk.may_leave self.new.disk c → IsBeforeOrAfter (recorded (D.Disk.seen self.old.disk)) (lines_of group.now.text.items) c }
        ensures clean { IsTrue (D.Disk.is_clean self.new.disk) → IsTrue (D.Disk.is_clean self.old.disk) }
        ensures faults { MatchResult result (λ _. D.Disk.faults self.new.disk ≡ D.Disk.faults self.old.disk)
            (λ e. AppendFails e (D.Disk.faults self.old.disk) (D.Disk.faults self.new.disk) (self.old.end + 1 + length group.now.text.items)) }
    {
        self.add(&group.text)
    }

    /// Adds lines at once, with two syncs for all of them: to an empty file as `begin` does, or behind those that are there.
    pub fn keep(&mut self, group: &Group) -> Result<(), AppendError>
        requires takes { TakesLines D.Disk.seen D.Disk.may_leave D.Disk.is_clean D.Disk.is_usable self.old }
        requires lines { HoldsLines group.now.text.items }
        ensures open { OnOk result (IsOpen D.Disk.seen D.Disk.may_leave D.Disk.is_clean D.Disk.is_usable self.new) }
        ensures added { OnOk result (IsTrue (D.Disk.is_clean self.new.disk) → recorded (D.Disk.seen self.new.disk) ≡ recorded (D.Disk.seen self.old.disk) ++ lines_of group.now.text.items) }
        ensures crash { IsTrue (D.Disk.is_clean self.new.disk) → (c : List ℕ) → D.Disk.may_leave self.new.disk c → IsBeforeOrAfter (recorded (D.Disk.seen self.old.disk)) (lines_of group.now.text.items) c }
        ensures clean { IsTrue (D.Disk.is_clean self.new.disk) → IsTrue (D.Disk.is_clean self.old.disk) }
        ensures faults { MatchResult result (λ _. D.Disk.faults self.new.disk ≡ D.Disk.faults self.old.disk)
            (λ e. AppendFails e (D.Disk.faults self.old.disk) (D.Disk.faults self.new.disk) (self.old.end + 1 + length group.now.text.items)) }
    {
        if self.end == 0 {
            self.begin(group)
        } else {
            self.append_group(group)
        }
    }

    /// Adds the lines of a text: they stand on the disk behind the closed gate, with the next one behind them, before it is opened.
    fn add(&mut self, text: &[u8]) -> Result<(), AppendError>
        requires ready { IsReady D.Disk.seen D.Disk.may_leave D.Disk.is_clean D.Disk.is_usable self.old }
        requires lines { HoldsLines text.now }
        ensures open { OnOk result (IsOpen D.Disk.seen D.Disk.may_leave D.Disk.is_clean D.Disk.is_usable self.new) }
        ensures added { OnOk result (IsTrue (D.Disk.is_clean self.new.disk) → recorded (D.Disk.seen self.new.disk) ≡ recorded (D.Disk.seen self.old.disk) ++ lines_of text.now) }
        ensures crash { IsTrue (D.Disk.is_clean self.new.disk) → (c : List ℕ) → D.Disk.may_leave self.new.disk c → IsBeforeOrAfter (recorded (D.Disk.seen self.old.disk)) (lines_of text.now) c }
        ensures clean { IsTrue (D.Disk.is_clean self.new.disk) → IsTrue (D.Disk.is_clean self.old.disk) }
        ensures faults { MatchResult result (λ _. D.Disk.faults self.new.disk ≡ D.Disk.faults self.old.disk)
            (λ e. AppendFails e (D.Disk.faults self.old.disk) (D.Disk.faults self.new.disk) (self.old.end + 1 + length text.now)) }
    {
        let room = room_for(self.end, text.len())?;
        self.disk.write_at(room.behind, text)?;
        self.disk.write_at(room.after, &[LF, LF])?;
        self.disk.sync()?;
        self.disk.write_at(self.end, &[OPEN])?;
        self.disk.sync()?;
        self.end = room.gate;
        Ok(())
    }
}

/// Where the parts of a new text go, in bytes.
#[derive(Clone, Copy)]
struct Room {
    /// The text.
    behind: usize,
    /// Its end, and the next gate.
    after: usize,
    /// That gate.
    gate: usize,
}

ghost use Rattle.pm_journal.specs.declared.errors.AppendError.TheVariants.{TooLong};

/// The places for a text of this length behind the gate.
fn room_for(end: usize, len: usize) -> Result<Room, AppendError>
    ensures ok { IfOk result (λ p. (p.behind ≡ end + 1) × (p.after ≡ end + 1 + len) × (p.gate ≡ end + 1 + len + 1)) }
    ensures err { IfErr result (λ e. (e ≡ TooLong) × (2 ^ 64 ≤ end + 1 + len + 2)) }
{
    let behind = end.checked_add(1).ok_or(AppendError::TooLong)?;
    let after = behind.checked_add(len).ok_or(AppendError::TooLong)?;
    let gate = after.checked_add(1).ok_or(AppendError::TooLong)?;
    Ok(Room {
        behind,
        after,
        gate,
    })
}
