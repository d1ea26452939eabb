//! Steps of any kind.
ghost use Rattle.std.specs.Prelude.{◌≡◌, IfOk};
ghost use Rattle.std.specs.Option.{option_map};
ghost use Rattle.pm_map.specs.Positions.{MayLead, EachLed};
ghost use Rattle.pm_meaning.specs.Maps.{carry, is_within, step_map};
ghost use Rattle.pm_step.specs.Steps.{step_of, HasSize};

use crate::around::ReplaceAroundStep;
use crate::attr::AttrStep;
use crate::doc_attr::DocAttrStep;
use crate::mark::MarkStep;
use crate::node_mark::NodeMarkStep;
use crate::replace::ReplaceStep;
use pm_map::{Positions, StepMap};
use std::alloc::{AllocError, Global};

/// A small change of a document. Positions are in tokens. Each kind is a type of its own; what they have in common is said here.
/// ProseMirror: `Step`.
#[derive(Drop)]
pub enum Step {
    /// Puts a slice in place of a range.
    Replace(ReplaceStep),
    /// Puts a slice in place of a range, and keeps a part of it.
    ReplaceAround(ReplaceAroundStep),
    /// Adds a mark to a range, or takes it away.
    Mark(MarkStep),
    /// Adds a mark to one node, or takes it away.
    NodeMark(NodeMarkStep),
    /// Gives an attribute of one node a value.
    Attr(AttrStep),
    /// Gives an attribute of the top node a value.
    DocAttr(DocAttrStep),
}

impl Step {
    /// A step equal to this one. It shares the nodes of a slice.
    pub fn copy(&self, alloc: Global) -> Result<Step, AllocError>
        ensures { IfOk result (λ s. s ≡ self.now) }
    {
        match self {
            Step::Replace(step) => Ok(Step::Replace(step.copy(alloc)?)),
            Step::ReplaceAround(step) => Ok(Step::ReplaceAround(step.copy(alloc)?)),
            Step::Mark(step) => Ok(Step::Mark(step.copy(alloc)?)),
            Step::NodeMark(step) => Ok(Step::NodeMark(step.copy(alloc)?)),
            Step::Attr(step) => Ok(Step::Attr(step.copy(alloc)?)),
            Step::DocAttr(step) => Ok(Step::DocAttr(step.copy(alloc)?)),
        }
    }

    /// How positions move over this step, by the ranges that it replaces. The step must be within some size below 2^32 tokens:
    /// its positions are in order and do not pass it, and `insert` does not pass the size of the slice. It takes no memory.
    /// ProseMirror: `Step.getMap`.
    pub fn step_map(&self) -> StepMap
        requires { HasSize (step_of self.now) }
        ensures { result ≡ step_map (step_of self.now) }
    {
        match self {
            Step::Replace(step) => step.step_map(),
            Step::ReplaceAround(step) => step.step_map(),
            Step::Mark(step) => step.step_map(),
            Step::NodeMark(step) => step.step_map(),
            Step::Attr(step) => step.step_map(),
            Step::DocAttr(step) => step.step_map(),
        }
    }

    /// The step over a mapping, or None where it is lost, as `carry` of its kind says. `positions` tells where
    /// positions go over the mapping, which must lead from a document of a size that the step is within.
    /// ProseMirror: `Step.map`.
    pub fn carry<P: Positions>(
        &self,
        alloc: Global,
        positions: &P,
    ) -> Result<Option<Step>, AllocError>
        requires { MayLead is_within P.leads (step_of self.now) positions.now }
        ensures { EachLed is_within P.leads (step_of self.now) positions.now
            (λ ms. IfOk result (λ o. option_map step_of o ≡ carry (step_of self.now) ms)) }
    {
        match self {
            Step::Replace(step) => Ok(step.carry(alloc, positions)?.map(Step::Replace)),
            Step::ReplaceAround(step) => Ok(step.carry(alloc, positions)?.map(Step::ReplaceAround)),
            Step::Mark(step) => Ok(step.carry(alloc, positions)?.map(Step::Mark)),
            Step::NodeMark(step) => Ok(step.carry(alloc, positions)?.map(Step::NodeMark)),
            Step::Attr(step) => Ok(step.carry(alloc, positions)?.map(Step::Attr)),
            Step::DocAttr(step) => Ok(step.carry(alloc, positions)?.map(Step::DocAttr)),
        }
    }
}
