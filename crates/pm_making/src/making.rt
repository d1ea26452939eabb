//! Ops become steps.
ghost use Rattle.std.specs.Prelude.{◌≡◌, ◌∷◌, [], IfOk};
ghost use Rattle.pm_step.specs.Steps.{step_of};

use pm_apply::DocChange;
use pm_change::MakeError;
use pm_edit::{Edited, edit_for};
use pm_node::Document;
use pm_ops::Op;
use pm_schema::Schema;
use pm_session::{Made, Maker};
use std::alloc::{AllocError, Global};

/// Makes the step of each op.
pub struct EditMaker;

impl Maker<DocChange> for EditMaker {
    ghost use Rattle.pm_making.specs.Making.{makes};
    ghost use Rattle.pm_making.specs.Makers.{some_step};

    type Op = Op;

    ghost makes = { λ maker schema doc op. makes schema doc op };

    fn steps(
        &self,
        alloc: Global,
        schema: &Schema,
        doc: &Document,
        op: &Op,
    ) -> Result<Made<DocChange>, MakeError> {
        match edit_for(alloc, schema, doc, op) {
            Ok(edited) => match made_of(alloc, edited) {
                Ok(made) => Ok(made),
                Err(AllocError) => Err(MakeError::NoMemory),
            },
            Err(MakeError::NoStep(reason)) => Err(MakeError::NoStep(reason)),
            Err(MakeError::NoMemory) => Err(MakeError::NoMemory),
        }
    }

    ghost some = { λ maker schema doc op h. some_step schema doc op h };
}

/// The edit's step as a change, with the document that it makes, where the edit has made it.
fn made_of(alloc: Global, edited: Edited) -> Result<Made<DocChange>, AllocError>
    ensures step { IfOk result (λ made. made.steps.items ≡ step_of edited.step ∷ []) }
    ensures doc { IfOk result (λ made. made.end ≡ edited.doc) }
{
    let Edited { step, doc } = edited;
    let mut steps = Vec::new(alloc);
    steps.push(DocChange::new(alloc, step)?)?;
    Ok(Made { steps, end: doc })
}
