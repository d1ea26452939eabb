//! Steps that replace what is around a gap.
ghost use Rattle.std.specs.Prelude.{◌≡◌, ◌==◌, IfOk, if◌then◌else◌};
ghost use Rattle.std.specs.Option.{option_map};
ghost use Rattle.pm_map.specs.Positions.{MayLead, EachLed};
ghost use Rattle.pm_meaning.specs.Maps.{carry, is_within, step_map};
ghost use Rattle.pm_step.specs.Steps.{step_of, HasSize};

use crate::ends::{ahead, back};
use crate::step::Step;
use pm_map::{Positions, Span, StepMap};
use pm_slice::Slice;
use std::alloc::{AllocError, Global};

/// Puts a slice in place of what stands from `from` to `to`, and keeps what stands from `gap_from` to `gap_to`: it comes
/// after the first `insert` tokens of the slice. With `structure` it may overwrite closes followed by opens alone.
/// ProseMirror: `ReplaceAroundStep`.
#[derive(Drop)]
pub struct ReplaceAroundStep {
    pub from: u64,
    pub to: u64,
    pub gap_from: u64,
    pub gap_to: u64,
    pub slice: Slice,
    pub insert: u64,
    pub structure: bool,
}

impl ReplaceAroundStep {
    /// A step equal to this one. It shares the nodes of the slice.
    pub fn copy(&self, alloc: Global) -> Result<ReplaceAroundStep, AllocError>
        ensures { IfOk result (λ s. s ≡ self.now) }
    {
        Ok(ReplaceAroundStep {
            from: self.from,
            to: self.to,
            gap_from: self.gap_from,
            gap_to: self.gap_to,
            slice: self.slice.copy(alloc)?,
            insert: self.insert,
            structure: self.structure,
        })
    }

    /// How positions move over this step: it has one range before its gap and one after it. It takes no memory.
    pub fn step_map(&self) -> StepMap
        requires { HasSize (step_of (Step.ReplaceAround self.now)) }
        ensures { result ≡ step_map (step_of (Step.ReplaceAround self.now)) }
    {
        let before = Span {
            start: self.from,
            old_size: self.gap_from - self.from,
            new_size: self.insert,
        };
        let behind = Span {
            start: self.gap_to,
            old_size: self.to - self.gap_to,
            new_size: self.slice.size() as u64 - self.insert,
        };
        StepMap::new(Some(before), Some(behind), false)
    }

    /// The step over a mapping: `from` by `After` and `to` by `Before`, and the ends of the gap outwards, or
    /// with an end of the step where they are the same position. It is lost where both ends lie strictly inside of deleted
    /// ranges, and where the gap sticks out at an end.
    pub fn carry<P: Positions>(
        &self,
        alloc: Global,
        positions: &P,
    ) -> Result<Option<ReplaceAroundStep>, AllocError>
        requires { MayLead is_within P.leads (step_of (Step.ReplaceAround self.now)) positions.now }
        ensures { EachLed is_within P.leads (step_of (Step.ReplaceAround self.now)) positions.now
            (λ ms. IfOk result (λ o. option_map (λ s. step_of (Step.ReplaceAround s)) o ≡ carry (step_of (Step.ReplaceAround self.now)) ms)) }
    {
        let start = ahead(positions, self.from);
        let end = back(positions, self.to);
        let gap_left = back(positions, self.gap_from);
        let gap_right = ahead(positions, self.gap_to);
        let gap_start = gap_end(self.gap_from, self.from, start.pos, gap_left.pos);
        let gap_end = gap_end(self.gap_to, self.to, end.pos, gap_right.pos);
        if start.across && end.across {
            return Ok(None);
        }
        if gap_start < start.pos || end.pos < gap_end {
            return Ok(None);
        }
        Ok(Some(ReplaceAroundStep {
            from: start.pos,
            to: end.pos,
            gap_from: gap_start,
            gap_to: gap_end,
            slice: self.slice.copy(alloc)?,
            insert: self.insert,
            structure: self.structure,
        }))
    }
}

/// Where an end of a gap goes: with the end of the step where the two are the same position.
fn gap_end(end: u64, step_end: u64, with_step: u64, apart: u64) -> u64
    ensures { result ≡ (if end == step_end then with_step else apart) }
{
    if end == step_end { with_step } else { apart }
}
