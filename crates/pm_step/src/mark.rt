//! Steps that mark a range.
ghost use Rattle.std.specs.Prelude.{◌≡◌, IfOk};
ghost use Rattle.std.specs.Option.{option_map};
ghost use Rattle.pm_map.specs.Positions.{MayLead, EachLed};
ghost use Rattle.pm_meaning.specs.Maps.{carry, is_within, step_map};
ghost use Rattle.pm_step.specs.Steps.{step_of};

use crate::ends::{ahead, back};
use crate::marking::Marking;
use crate::step::Step;
use pm_map::{Positions, StepMap};
use std::alloc::{AllocError, Global};

/// Adds a mark to the units and the inline leaves and atoms from `from` to `to`, where their parents allow it, or takes it from
/// all that is inline there.
/// ProseMirror: `AddMarkStep`, `RemoveMarkStep`.
#[derive(Drop)]
pub struct MarkStep {
    pub from: u64,
    pub to: u64,
    pub marking: Marking,
}

impl MarkStep {
    /// A step equal to this one.
    pub fn copy(&self, alloc: Global) -> Result<MarkStep, AllocError>
        ensures { IfOk result (λ s. s ≡ self.now) }
    {
        Ok(MarkStep {
            from: self.from,
            to: self.to,
            marking: self.marking.copy(alloc)?,
        })
    }

    /// How positions move over this step: it moves none. It takes no memory.
    pub fn step_map(&self) -> StepMap
        ensures { result ≡ step_map (step_of (Step.Mark self.now)) }
    {
        StepMap::new(None, None, false)
    }

    /// The step over a mapping: `from` by `After` and `to` by `Before`. It is lost where both ends are deleted,
    /// or nothing is left between them.
    pub fn carry<P: Positions>(
        &self,
        alloc: Global,
        positions: &P,
    ) -> Result<Option<MarkStep>, AllocError>
        requires { MayLead is_within P.leads (step_of (Step.Mark self.now)) positions.now }
        ensures { EachLed is_within P.leads (step_of (Step.Mark self.now)) positions.now
            (λ ms. IfOk result (λ o. option_map (λ s. step_of (Step.Mark s)) o ≡ carry (step_of (Step.Mark self.now)) ms)) }
    {
        let start = ahead(positions, self.from);
        let end = back(positions, self.to);
        if start.deleted && end.deleted {
            return Ok(None);
        }
        if end.pos <= start.pos {
            return Ok(None);
        }
        Ok(Some(MarkStep {
            from: start.pos,
            to: end.pos,
            marking: self.marking.copy(alloc)?,
        }))
    }
}
