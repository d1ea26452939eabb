//! Steps that mark one node.
ghost use Rattle.std.specs.Prelude.{◌≡◌, IfOk};
ghost use Rattle.std.specs.Option.{option_map};
ghost use Rattle.pm_map.specs.Positions.{MayLead, EachLed};
ghost use Rattle.pm_meaning.specs.Maps.{carry, is_within, step_map};
ghost use Rattle.pm_step.specs.Steps.{step_of};

use crate::ends::ahead;
use crate::marking::Marking;
use crate::step::Step;
use pm_map::{Positions, StepMap};
use std::alloc::{AllocError, Global};

/// Adds a mark to the node that begins at `pos`, or takes it away.
/// ProseMirror: `AddNodeMarkStep`, `RemoveNodeMarkStep`.
#[derive(Drop)]
pub struct NodeMarkStep {
    pub pos: u64,
    pub marking: Marking,
}

impl NodeMarkStep {
    /// A step equal to this one.
    pub fn copy(&self, alloc: Global) -> Result<NodeMarkStep, AllocError>
        ensures { IfOk result (λ s. s ≡ self.now) }
    {
        Ok(NodeMarkStep {
            pos: self.pos,
            marking: self.marking.copy(alloc)?,
        })
    }

    /// How positions move over this step: it moves none. It takes no memory.
    pub fn step_map(&self) -> StepMap
        ensures { result ≡ step_map (step_of (Step.NodeMark self.now)) }
    {
        StepMap::new(None, None, false)
    }

    /// The step over a mapping: `pos` by `After`. It is lost where the token after it is deleted.
    pub fn carry<P: Positions>(
        &self,
        alloc: Global,
        positions: &P,
    ) -> Result<Option<NodeMarkStep>, AllocError>
        requires { MayLead is_within P.leads (step_of (Step.NodeMark self.now)) positions.now }
        ensures { EachLed is_within P.leads (step_of (Step.NodeMark self.now)) positions.now
            (λ ms. IfOk result (λ o. option_map (λ s. step_of (Step.NodeMark s)) o ≡ carry (step_of (Step.NodeMark self.now)) ms)) }
    {
        let at = ahead(positions, self.pos);
        if at.after {
            return Ok(None);
        }
        Ok(Some(NodeMarkStep {
            pos: at.pos,
            marking: self.marking.copy(alloc)?,
        }))
    }
}
