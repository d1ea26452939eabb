//! What a file stands for.
ghost use Rattle.std.specs.Prelude.{◌≡◌, ◌≢◌, ◌⊎◌, ◌↔◌, ◌++◌, [], ◌∷◌, List, ℕ, IsTrue, IfOk, IfErr, IfSome, IfNone, MatchResult};
ghost use Rattle.sqlite_disk.specs.Disk.{CountsFault};
ghost use Rattle.pm_journal.specs.Lines.{recorded, IsLine, IsAtRest, HasClosedGate};
ghost use Rattle.pm_journal.specs.Journal.{IsRecovered, RecoverFails};

use crate::errors::RecoverError;
use crate::group::{OPEN, line_len};
use sqlite_disk::Disk;
use std::alloc::Global;
use std::io;

/// What a file stands for.
#[derive(Drop)]
pub struct Recovered {
    /// Its lines, without their LFs: one at least.
    pub lines: Vec<Vec<u8>>,
    /// Where the closed gate behind them is, in bytes.
    pub end: usize,
}

/// Whether nothing is in the file. A failed call is the one error.
pub fn is_blank<D: Disk>(disk: &mut D) -> io::Result<bool>
    requires { IsTrue (D.Disk.is_usable disk.old) }
    ensures blank { IfOk result (λ is. IsTrue (D.Disk.is_clean disk.new) → IsTrue is ↔ (D.Disk.seen disk.new ≡ [])) }
    ensures faults { CountsFault result (D.Disk.faults disk.old) (D.Disk.faults disk.new) }
    ensures seen { D.Disk.seen disk.new ≡ D.Disk.seen disk.old }
    ensures crash { (c : List ℕ) → D.Disk.may_leave disk.new c → D.Disk.may_leave disk.old c }
    ensures usable { IsTrue (D.Disk.is_usable disk.new) }
    ensures clean { IsTrue (D.Disk.is_clean disk.new) → IsTrue (D.Disk.is_clean disk.old) }
{
    Ok(disk.len()? == 0)
}

/// The lines of a file that a crash may have left, and the place of the closed gate behind them. Nothing is written, so a crash
/// leaves what one could leave before. A file that doesn't begin with a space has no line, so it is `Broken`.
pub fn recover<D: Disk>(alloc: Global, disk: &mut D) -> Result<Recovered, RecoverError>
    requires { IsTrue (D.Disk.is_usable disk.old) }
    ensures lines { IfOk result (λ r. IsTrue (D.Disk.is_clean disk.new) → IsRecovered r (D.Disk.seen disk.new)) }
    // It refuses only a file that has no lines and a closed gate behind them.
    ensures broken { IfErr result (λ e. e ≡ RecoverError.Broken → IsTrue (D.Disk.is_clean disk.new) → (lines : List (List ℕ)) → lines ≢ [] → ¬ IsAtRest lines (D.Disk.seen disk.new)) }
    ensures faults { MatchResult result (λ _. D.Disk.faults disk.new ≡ D.Disk.faults disk.old) (λ e. RecoverFails e (D.Disk.faults disk.old) (D.Disk.faults disk.new)) }
    ensures seen { D.Disk.seen disk.new ≡ D.Disk.seen disk.old }
    ensures crash { (c : List ℕ) → D.Disk.may_leave disk.new c → D.Disk.may_leave disk.old c }
    ensures usable { IsTrue (D.Disk.is_usable disk.new) }
    ensures clean { IsTrue (D.Disk.is_clean disk.new) → IsTrue (D.Disk.is_clean disk.old) }
{
    let bytes = read_all(alloc, disk)?;
    parse(alloc, &bytes)
}

/// What a read returns.
#[tactic(auto, using(crate::proofs::Crash::all_read))]
fn read_all<D: Disk>(alloc: Global, disk: &mut D) -> Result<Vec<u8>, RecoverError>
    requires { IsTrue (D.Disk.is_usable disk.old) }
    ensures bytes { IfOk result (λ v. IsTrue (D.Disk.is_clean disk.new) → v.items ≡ D.Disk.seen disk.new) }
    ensures other { IfErr result (λ e. e ≢ RecoverError.Broken) }
    ensures faults { MatchResult result (λ _. D.Disk.faults disk.new ≡ D.Disk.faults disk.old) (λ e. RecoverFails e (D.Disk.faults disk.old) (D.Disk.faults disk.new)) }
    ensures seen { D.Disk.seen disk.new ≡ D.Disk.seen disk.old }
    ensures crash { (c : List ℕ) → D.Disk.may_leave disk.new c → D.Disk.may_leave disk.old c }
    ensures usable { IsTrue (D.Disk.is_usable disk.new) }
    ensures clean { IsTrue (D.Disk.is_clean disk.new) → IsTrue (D.Disk.is_clean disk.old) }
{
    let len = disk.len()?;
    let mut bytes = vec![in alloc; 0u8; len]?;
    disk.read_at(0, &mut bytes)?;
    Ok(bytes)
}

/// The lines of these bytes, and the place of the closed gate behind them.
#[tactic(auto, using(crate::proofs::Lines::records_push, crate::proofs::Lines::all_push))]
fn parse(alloc: Global, bytes: &[u8]) -> Result<Recovered, RecoverError>
    ensures lines { IfOk result (λ r. IsRecovered r bytes.now) }
    ensures broken { IfErr result (λ e. e ≡ RecoverError.Broken → (lines : List (List ℕ)) → lines ≢ [] → ¬ IsAtRest lines bytes.now) }
    ensures memory { IfErr result (λ e. (e ≡ RecoverError.Broken) ⊎ (e ≡ RecoverError.Memory)) }
{
    let mut lines = Vec::new(alloc);
    let mut rest = bytes;
    while let Some((line, after)) = next_line(rest) {
        lines.push(line.to_vec(alloc)?)?;
        rest = after;
    }
    if lines.is_empty() {
        return Err(RecoverError::Broken);
    }
    if !is_closed(rest) {
        return Err(RecoverError::Broken);
    }
    Ok(Recovered {
        lines,
        end: bytes.len() - rest.len(),
    })
}

/// Whether there is a gate, and it is closed.
fn is_closed(rest: &[u8]) -> bool
    ensures { IsTrue result ↔ HasClosedGate rest.now }
{
    match rest {
        [gate, ..] => *gate != OPEN,
        [] => false,
    }
}

/// The line behind an open gate, and what stands behind its LF.
fn next_line(rest: &[u8]) -> Option<(&[u8], &[u8])>
    ensures some { IfSome result (λ p. (rest.now ≡ 32 ∷ (p.0.now ++ 10 ∷ p.1.now)) × IsLine p.0.now) }
    ensures none { IfNone result (recorded rest.now ≡ []) }
{
    let (gate, behind) = rest.split_first()?;
    if *gate != OPEN {
        return None;
    }
    match line_len(behind) {
        Some(len) => Some((&behind[..len], &behind[len + 1..])),
        None => None,
    }
}
