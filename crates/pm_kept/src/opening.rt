//! A service behind the lines of a file.
ghost use Rattle.std.specs.Prelude.{◌≡◌, List, ℕ, true, IsTrue, IfOk, IfErr, MatchResult, map};
ghost use Rattle.pm_journal.specs.Journal.{IsRecovered, texts};
ghost use Rattle.pm_kept.specs.Accepted.{Tried};
ghost use Rattle.pm_kept.specs.Behind.{Behind};
ghost use Rattle.pm_kept.specs.Opens.{OpenFails, ReplayFails};

use crate::keepable::{Keepable, Outcome};
use pm_journal::{RecoverError, Recovered, recover};
use sqlite_disk::Disk;
use std::alloc::{AllocError, Global};

/// Why there is no service behind the lines of a file.
#[derive(Debug, Drop)]
pub enum OpenError {
    /// The lines of the file are not known.
    Unread(RecoverError),
    /// There is no memory for the service.
    Memory,
    /// This line of the file, counted from 1, is not accepted behind the lines before it.
    NotAccepted(usize),
    /// The service behind the lines has not begun: the file of a talk has a schema, and no document. A house has always begun.
    NoDocument,
}

impl From<AllocError> for OpenError {
    ghost use Rattle.std.specs.Prelude.{◌≡◌};
    ghost use Rattle.pm_kept.specs.declared.opening.OpenError.TheVariants.{Memory};

    ghost from_gives = { λ _ e. e ≡ Memory };

    fn from(_: AllocError) -> OpenError {
        OpenError::Memory
    }
}

impl From<RecoverError> for OpenError {
    ghost use Rattle.std.specs.Prelude.{◌≡◌};
    ghost use Rattle.pm_kept.specs.declared.opening.OpenError.TheVariants.{Unread};

    ghost from_gives = { λ x e. e ≡ Unread x };

    fn from(error: RecoverError) -> OpenError {
        OpenError::Unread(error)
    }
}

/// The lines of a file, and the service behind them.
#[derive(Drop)]
pub struct Opened<S: Keepable> {
    pub found: Recovered,
    pub service: S,
}

/// Reads a file that a crash may have left, and stands behind its lines. Nothing is written, so a crash leaves what one could leave
/// before.
pub fn open<S: Keepable, D: Disk>(alloc: Global, disk: &mut D) -> Result<Opened<S>, OpenError>
    requires { IsTrue (D.Disk.is_usable disk.old) }
    ensures lines { IfOk result (λ o. IsTrue (D.Disk.is_clean disk.new) → IsRecovered o.found (D.Disk.seen disk.new)) }
    ensures stands { IfOk result (λ o. Behind S.means (texts o.found) S.means.start o.service) }
    ensures begun { IfOk result (λ o. S.means.is_begun o.service ≡ true) }
    ensures good { IfOk result (λ o. S.means.good o.service) }
    ensures faults { MatchResult result (λ _. D.Disk.faults disk.new ≡ D.Disk.faults disk.old)
        (λ e. OpenFails S.means e (D.Disk.faults disk.old) (D.Disk.faults disk.new) (IsTrue (D.Disk.is_clean disk.new)) (D.Disk.seen disk.new)) }
    ensures seen { D.Disk.seen disk.new ≡ D.Disk.seen disk.old }
    ensures crash { (c : List ℕ) → D.Disk.may_leave disk.new c → D.Disk.may_leave disk.old c }
    ensures usable { IsTrue (D.Disk.is_usable disk.new) }
    ensures clean { IsTrue (D.Disk.is_clean disk.new) → IsTrue (D.Disk.is_clean disk.old) }
{
    let found = recover(alloc, disk)?;
    let service: S = replay(alloc, &found.lines)?;
    if !service.is_begun() {
        return Err(OpenError::NoDocument);
    }
    Ok(Opened { found, service })
}

/// The service behind these lines, from the first one on.
fn replay<S: Keepable>(alloc: Global, lines: &[Vec<u8>]) -> Result<S, OpenError>
    ensures stands { IfOk result (λ service. Behind S.means (map (λ line. line.items) lines.now) S.means.start service) }
    ensures good { IfOk result (λ service. S.means.good service) }
    ensures fails { IfErr result (λ e. ReplayFails S.means e (map (λ line. line.items) lines.now)) }
{
    let mut service = S::start(alloc);
    let mut count = 0;
    for line in lines {
        count += 1;
        let is_accepted = accept(alloc, &mut service, line)?;
        if !is_accepted {
            return Err(OpenError::NotAccepted(count));
        }
    }
    Ok(service)
}

/// Takes a line, and says whether it is accepted.
fn accept<S: Keepable>(alloc: Global, service: &mut S, line: &[u8]) -> Result<bool, AllocError>
    requires { S.means.good service.old }
    ensures tried { IfOk result (λ is. Tried S.means service.old line.now is service.new) }
    ensures good { S.means.good service.new }
{
    let Outcome { changed, .. } = service.hear(alloc, line)?;
    Ok(changed)
}
