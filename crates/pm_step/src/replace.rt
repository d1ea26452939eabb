//! Steps that replace a range by a slice.
ghost use Rattle.std.specs.Prelude.{◌≡◌, IfOk};
ghost use Rattle.std.specs.Option.{option_map};
ghost use Rattle.pm_map.specs.Positions.{MayLead, EachLed};
ghost use Rattle.pm_meaning.specs.Maps.{carry, is_within, step_map};
ghost use Rattle.pm_step.specs.Steps.{step_of, HasSize};

use crate::ends::{ahead, back};
use crate::step::Step;
use pm_map::{Positions, Span, StepMap};
use pm_slice::Slice;
use std::alloc::{AllocError, Global};

/// Puts a slice in place of what stands from `from` to `to`. With `structure` it may overwrite closes followed by opens alone.
/// ProseMirror: `ReplaceStep`.
#[derive(Drop)]
pub struct ReplaceStep {
    pub from: u64,
    pub to: u64,
    pub slice: Slice,
    pub structure: bool,
}

impl ReplaceStep {
    /// A step equal to this one. It shares the nodes of the slice.
    pub fn copy(&self, alloc: Global) -> Result<ReplaceStep, AllocError>
        ensures { IfOk result (λ s. s ≡ self.now) }
    {
        Ok(ReplaceStep {
            from: self.from,
            to: self.to,
            slice: self.slice.copy(alloc)?,
            structure: self.structure,
        })
    }

    /// How positions move over this step: it has one range. It takes no memory.
    pub fn step_map(&self) -> StepMap
        requires { HasSize (step_of (Step.Replace self.now)) }
        ensures { result ≡ step_map (step_of (Step.Replace self.now)) }
    {
        let range = Span {
            start: self.from,
            old_size: self.to - self.from,
            new_size: self.slice.size() as u64,
        };
        StepMap::new(Some(range), None, false)
    }

    /// The step over a mapping: `from` by `After` and `to` by `Before`, raised to `from`. It is lost where
    /// both ends lie strictly inside of deleted ranges.
    pub fn carry<P: Positions>(
        &self,
        alloc: Global,
        positions: &P,
    ) -> Result<Option<ReplaceStep>, AllocError>
        requires { MayLead is_within P.leads (step_of (Step.Replace self.now)) positions.now }
        ensures { EachLed is_within P.leads (step_of (Step.Replace self.now)) positions.now
            (λ ms. IfOk result (λ o. option_map (λ s. step_of (Step.Replace s)) o ≡ carry (step_of (Step.Replace self.now)) ms)) }
    {
        let start = ahead(positions, self.from);
        let end = back(positions, self.to);
        if start.across && end.across {
            return Ok(None);
        }
        Ok(Some(ReplaceStep {
            from: start.pos,
            to: start.pos.max(end.pos),
            slice: self.slice.copy(alloc)?,
            structure: self.structure,
        }))
    }
}
