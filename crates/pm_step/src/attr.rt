//! Steps that change an attribute of one node.
ghost use Rattle.std.specs.Prelude.{◌≡◌, IfOk};
ghost use Rattle.std.specs.Option.{option_map};
ghost use Rattle.pm_map.specs.Positions.{MayLead, EachLed};
ghost use Rattle.pm_meaning.specs.Maps.{carry, is_within, step_map};
ghost use Rattle.pm_step.specs.Steps.{step_of};

use crate::ends::ahead;
use crate::step::Step;
use pm_map::{Positions, StepMap};
use pm_value::{Text, Value};
use std::alloc::{AllocError, Global};

/// Gives the attribute `attr` of the node that begins at `pos` the value.
/// ProseMirror: `AttrStep`.
#[derive(Drop)]
pub struct AttrStep {
    pub pos: u64,
    pub attr: Text,
    pub value: Value,
}

impl AttrStep {
    /// A step equal to this one.
    pub fn copy(&self, alloc: Global) -> Result<AttrStep, AllocError>
        ensures { IfOk result (λ s. s ≡ self.now) }
    {
        Ok(AttrStep {
            pos: self.pos,
            attr: self.attr.copy(alloc)?,
            value: self.value.copy(alloc)?,
        })
    }

    /// How positions move over this step: it moves none. It takes no memory.
    pub fn step_map(&self) -> StepMap
        ensures { result ≡ step_map (step_of (Step.Attr self.now)) }
    {
        StepMap::new(None, None, false)
    }

    /// The step over a mapping: `pos` by `After`. It is lost where the token after it is deleted.
    pub fn carry<P: Positions>(
        &self,
        alloc: Global,
        positions: &P,
    ) -> Result<Option<AttrStep>, AllocError>
        requires { MayLead is_within P.leads (step_of (Step.Attr self.now)) positions.now }
        ensures { EachLed is_within P.leads (step_of (Step.Attr self.now)) positions.now
            (λ ms. IfOk result (λ o. option_map (λ s. step_of (Step.Attr s)) o ≡ carry (step_of (Step.Attr self.now)) ms)) }
    {
        let at = ahead(positions, self.pos);
        if at.after {
            return Ok(None);
        }
        Ok(Some(AttrStep {
            pos: at.pos,
            attr: self.attr.copy(alloc)?,
            value: self.value.copy(alloc)?,
        }))
    }
}
