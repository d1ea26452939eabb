//! A service whose accepted lines are in a file.
ghost use Rattle.std.specs.Prelude.{◌≡◌, ◌++◌, ◌∷◌, [], List, ℕ, false, true, None, Some, IsTrue, IfOk, OnErr, string_bytes, if◌then◌else◌};
ghost use Rattle.sqlite_disk.specs.Disk.{Only};
ghost use Rattle.pm_journal.specs.Lines.{IsLine, HoldsLines, lines_of};
ghost use Rattle.pm_journal.specs.Journal.{IsRecovered, TakesLines, texts};
ghost use Rattle.pm_kept.specs.Behind.{Behind, Takes};
ghost use Rattle.pm_kept.specs.Kept.{disk_fault, held_lines, AreHeld, IsGoodKept, PutsHeld};

use crate::keepable::{Keepable, Outcome};
use crate::opening::Opened;
use pm_journal::{Group, Journal};
use pm_serve::Reply;
use sqlite_disk::Disk;
use std::alloc::{AllocError, Global};

/// What is said where a call of the disk failed. It takes no memory.
pub fn disk_fault() -> &'static str
    ensures { result.now ≡ disk_fault }
{
    "{\"fault\":\"disk\"}\n"
}

/// A service, and the file of the lines that it accepted.
#[derive(Drop)]
pub struct Kept<S: Keepable, D: Disk> {
    pub service: S,
    /// Accepted lines that are not yet in the file.
    pub held: Option<Group>,
    pub journal: Journal<D>,
    /// Whether a call of the disk failed. Then no further line is answered.
    pub failed: bool,
}

impl<S: Keepable, D: Disk> Kept<S, D> {
    /// A service before its first line, with this limit of work in tokens, over an empty file. Nothing is written.
    pub fn new(alloc: Global, disk: D, limit: Option<u64>) -> Kept<S, D>
        requires usable { IsTrue (D.Disk.is_usable disk) }
        requires empty { IsTrue (D.Disk.is_clean disk) → D.Disk.seen disk ≡ [] }
        // After a restart, what is read is what is on the disk.
        requires durable { IsTrue (D.Disk.is_clean disk) → Only (D.Disk.seen disk) (D.Disk.may_leave disk) }
        ensures good { IsGoodKept S.means D.Disk.seen D.Disk.may_leave D.Disk.is_clean D.Disk.is_usable result }
        ensures service { result.service ≡ S.means.limited limit S.means.start }
        ensures held { result.held ≡ None }
        ensures up { result.failed ≡ false }
        ensures disk { result.journal.disk ≡ disk }
    {
        let mut service = S::start(alloc);
        service.set_limit(limit);
        Kept {
            service,
            held: None,
            journal: Journal::blank(disk),
            failed: false,
        }
    }

    /// The service behind the lines of a file, with this limit of work in tokens from now on, over that file. Nothing is written.
    pub fn resume(disk: D, opened: Opened<S>, limit: Option<u64>) -> Kept<S, D>
        requires usable { IsTrue (D.Disk.is_usable disk) }
        requires found { IsTrue (D.Disk.is_clean disk) → IsRecovered opened.found (D.Disk.seen disk) }
        requires stands { Behind S.means (texts opened.found) S.means.start opened.service }
        requires begun { S.means.is_begun opened.service ≡ true }
        requires service { S.means.good opened.service }
        // After a restart, what is read is what is on the disk.
        requires durable { IsTrue (D.Disk.is_clean disk) → Only (D.Disk.seen disk) (D.Disk.may_leave disk) }
        ensures good { IsGoodKept S.means D.Disk.seen D.Disk.may_leave D.Disk.is_clean D.Disk.is_usable result }
        ensures service { result.service ≡ S.means.limited limit opened.service }
        ensures held { result.held ≡ None }
        ensures up { result.failed ≡ false }
        ensures disk { result.journal.disk ≡ disk }
    {
        let Opened { found, service } = opened;
        let mut service = service;
        service.set_limit(limit);
        let journal = Journal::resume(disk, &found);
        Kept {
            service,
            held: None,
            journal,
            failed: false,
        }
    }

    /// Puts the lines that are held into the file, all at once, and says whether that is done. They are held on before the
    /// service has begun.
    pub(crate) fn put_held(&mut self) -> bool
        requires file { TakesLines D.Disk.seen D.Disk.may_leave D.Disk.is_clean D.Disk.is_usable self.old.journal }
        requires held { AreHeld self.old.held }
        requires up { self.old.failed ≡ false }
        ensures puts { PutsHeld S.means D.Disk.seen D.Disk.may_leave D.Disk.is_clean D.Disk.is_usable D.Disk.faults result self.old self.new }
        ensures service { self.new.service ≡ self.old.service }
    {
        if !self.service.is_begun() {
            return true;
        }
        let Some(group) = self.held.take() else {
            return true;
        };
        match self.journal.keep(&group) {
            Ok(()) => true,
            Err(_) => {
                self.failed = true;
                false
            }
        }
    }
}

/// Tells the service a line, and holds it if it is accepted. Out of memory changes nothing.
pub(crate) fn take<S: Keepable>(
    alloc: Global,
    service: &mut S,
    held: &mut Option<Group>,
    line: &[u8],
) -> Result<Reply, AllocError>
    requires good { S.means.good service.old }
    requires held { AreHeld held.old }
    requires line { IsLine line.now }
    ensures told { IfOk result (λ r. S.means.replies service.old line.now (string_bytes r.text) r.more service.new) }
    ensures taken { IfOk result (λ r. (new : List (List ℕ)) × Takes service.old line.now service.new new × (held_lines held.new ≡ held_lines held.old ++ new)) }
    ensures err { OnErr result ((service.new ≡ service.old) × (held.new ≡ held.old)) }
    ensures good { S.means.good service.new }
    ensures held { AreHeld held.new }
{
    let more = held_with(alloc, held, line)?;
    let Outcome { reply, changed } = service.hear(alloc, line)?;
    hold(held, more, changed);
    Ok(reply)
}

/// Holds these lines in place of the others, where something changed.
fn hold(held: &mut Option<Group>, more: Group, changed: bool)
    ensures { held.new ≡ (if changed then Some more else held.old) }
{
    if changed {
        *held = Some(more);
    }
}

/// The lines that are held, and one more.
fn held_with(alloc: Global, held: &Option<Group>, line: &[u8]) -> Result<Group, AllocError>
    requires held { AreHeld held.now }
    requires line { IsLine line.now }
    ensures holds { IfOk result (λ g. HoldsLines g.text.items) }
    ensures lines { IfOk result (λ g. lines_of g.text.items ≡ held_lines held.now ++ line.now ∷ []) }
{
    match held {
        Some(group) => group.with(alloc, line),
        None => Group::of(alloc, line),
    }
}
