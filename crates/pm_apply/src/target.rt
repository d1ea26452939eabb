//! What a mark step is made for: the tokens of a range, or one node.
ghost use Rattle.std.specs.Prelude.{◌≡◌, ◌∷◌, ◌++◌, [], OnOk};
ghost use Rattle.pm_apply.specs.Walks.{target_step};

use crate::change::DocChange;
use pm_step::{MarkStep, Marking, NodeMarkStep, Step};
use std::alloc::{AllocError, Global};

/// The tokens whose marks a step changes: those of a range, or that of one node.
#[derive(Clone, Copy)]
pub enum Target {
    Range { from: usize, to: usize },
    Node { pos: usize },
}

/// Appends the step that does this to the target to the others.
pub fn push_step(
    alloc: Global,
    steps: &mut Vec<DocChange>,
    target: Target,
    marking: Marking,
) -> Result<(), AllocError>
    ensures { OnOk result (steps.new.items ≡ steps.old.items ++ target_step target marking ∷ []) }
{
    let step = match target {
        Target::Range { from, to } => Step::Mark(MarkStep {
            from: from as u64,
            to: to as u64,
            marking,
        }),
        Target::Node { pos } => Step::NodeMark(NodeMarkStep {
            pos: pos as u64,
            marking,
        }),
    };
    steps.push(DocChange::new(alloc, step)?)?;
    Ok(())
}
