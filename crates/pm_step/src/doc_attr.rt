//! Steps that change an attribute of the top node.
ghost use Rattle.std.specs.Prelude.{◌≡◌, IfOk};
ghost use Rattle.std.specs.Option.{option_map};
ghost use Rattle.pm_map.specs.Positions.{MayLead, EachLed};
ghost use Rattle.pm_meaning.specs.Maps.{carry, is_within, step_map};
ghost use Rattle.pm_step.specs.Steps.{step_of};

use crate::step::Step;
use pm_map::{Positions, StepMap};
use pm_value::{Text, Value};
use std::alloc::{AllocError, Global};

/// Gives the attribute `attr` of the top node the value.
/// ProseMirror: `DocAttrStep`.
#[derive(Drop)]
pub struct DocAttrStep {
    pub attr: Text,
    pub value: Value,
}

impl DocAttrStep {
    /// A step equal to this one.
    pub fn copy(&self, alloc: Global) -> Result<DocAttrStep, AllocError>
        ensures { IfOk result (λ s. s ≡ self.now) }
    {
        Ok(DocAttrStep {
            attr: self.attr.copy(alloc)?,
            value: self.value.copy(alloc)?,
        })
    }

    /// How positions move over this step: it moves none. It takes no memory.
    pub fn step_map(&self) -> StepMap
        ensures { result ≡ step_map (step_of (Step.DocAttr self.now)) }
    {
        StepMap::new(None, None, false)
    }

    /// The step over a mapping: it stays as it is, and is never lost.
    pub fn carry<P: Positions>(
        &self,
        alloc: Global,
        _positions: &P,
    ) -> Result<Option<DocAttrStep>, AllocError>
        requires { MayLead is_within P.leads (step_of (Step.DocAttr self.now)) _positions.now }
        ensures { EachLed is_within P.leads (step_of (Step.DocAttr self.now)) _positions.now
            (λ ms. IfOk result (λ o. option_map (λ s. step_of (Step.DocAttr s)) o ≡ carry (step_of (Step.DocAttr self.now)) ms)) }
    {
        Ok(Some(self.copy(alloc)?))
    }
}
