//! The document after the first steps of a log.
ghost use Rattle.std.specs.Prelude.{◌≡◌, ◌+◌, ◌%◌, ◌≤◌, length, take, IfOk, IfErr, OnOk};
ghost use Rattle.pm_authority.specs.Runs.{AllApply};
ghost use Rattle.pm_versions.specs.Checkpoints.{IsVersions, IsAtRefusal};
ghost use Rattle.pm_versions.specs.declared.at.AtError.TheVariants.{NoMemory};

use crate::steps::{Steps, advance};
use crate::versions::{SPACING, Versions};
use pm_change::Change;
use std::alloc::{AllocError, Global};
use std::sync::ledger::Ledger;
use thiserror::Error;

/// Why there is no document after so many steps.
#[derive(Clone, Copy, Debug, PartialEq, Eq, Error)]
pub enum AtError {
    /// There are only `length` steps.
    #[error("there are only {length} steps")]
    Past { length: u64 },
    /// Memory ran out.
    #[error("out of memory")]
    NoMemory,
}

impl From<AllocError> for AtError {
    ghost from_gives = { λ _ e. e ≡ NoMemory };

    fn from(_error: AllocError) -> AtError {
        AtError::NoMemory
    }
}

impl<C: Change> Versions<C> {
    /// The document after the first n steps: the first document, and then these steps one after another. `Past` comes exactly
    /// where there are fewer. It takes n mod 64 steps, at most 63.
    pub fn at<L: Ledger>(
        &self,
        alloc: Global,
        rules: &C::Rules,
        n: u64,
        steps: &mut Steps<L>,
    ) -> Result<C::Doc, AtError>
        requires { IsVersions C.means rules.now self.now }
        ensures gives { IfOk result (AllApply C.means rules.now self.now.first (take n self.now.log)) }
        ensures good { IfOk result (C.means.is_good rules.now) }
        ensures within { OnOk result (n ≤ length self.now.log) }
        ensures refused { IfErr result (IsAtRefusal (length self.now.log) n) }
        ensures counts { OnOk result (steps.new ≡ steps.old + n % 64) }
        ensures most { steps.new ≤ steps.old + 63 }
    {
        let length = self.log.len() as u64;
        if length < n {
            return Err(AtError::Past { length });
        }
        let i = n as usize / SPACING;
        let begin = C::copy_doc(alloc, self.checkpoint(i))?;
        let rest = &self.log.as_slice()[SPACING * i..n as usize];
        Ok(advance(alloc, rules, begin, rest, steps)?)
    }
}
