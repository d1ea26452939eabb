//! The JSON of a replace.
ghost use Rattle.std.specs.Prelude.{◌≡◌, IfOk, OnOk};
ghost use Rattle.serde_json.specs.View.{view};
ghost use Rattle.pm_docjson.specs.Writable.{AreWritable};
ghost use Rattle.pm_step.specs.Steps.{step_of};
ghost use Rattle.pm_stepjson.specs.Answers.{Gives};
ghost use Rattle.pm_stepjson.specs.Members.{SliceAgain};
ghost use Rattle.pm_stepjson.specs.Replace.{replace_from};
ghost use Rattle.pm_stepjson.specs.Writing.{step_written};

use crate::fault::StepReadError;
use crate::fields::{number_at, slice_at, structure_at};
use crate::members::replaced;
use pm_json::JsonRef;
use pm_schema::Schema;
use pm_step::{ReplaceStep, Step};
use serde_json::{Value as Json, put};
use std::alloc::{AllocError, Global};

/// The replace that the fields give.
#[tactic(auto, unfolding(crate::specs::Replace::replace_from))]
pub(crate) fn replace_from<J: JsonRef>(
    alloc: Global,
    schema: &Schema,
    json: J,
) -> Result<ReplaceStep, StepReadError>
    ensures { Gives (λ s. step_of (Step.Replace s)) result (replace_from schema.now.spec (J.seen json)) }
{
    let from = number_at(json, "from")?;
    let to = number_at(json, "to")?;
    let slice = slice_at(alloc, schema, json)?;
    let structure = structure_at(json)?;
    Ok(ReplaceStep {
        from,
        to,
        slice,
        structure,
    })
}

/// The JSON value of a replace.
#[tactic(auto, using(crate::proofs::ObjectLaws::puts))]
pub(crate) fn replace_json(
    alloc: Global,
    schema: &Schema,
    step: &ReplaceStep,
) -> Result<Json, AllocError>
    ensures written { IfOk result (λ j. view j ≡ step_written schema.now.spec (step_of (Step.Replace step.now))) }
    ensures again { OnOk result (AreWritable schema.now.spec step.now.slice.content → SliceAgain schema.now.spec step.now.slice) }
{
    let mut map = replaced(
        alloc,
        schema,
        "replace",
        step.to,
        &step.slice,
        step.structure,
    )?;
    put(&mut map, alloc, "from", Json::from(step.from))?;
    Ok(Json::Object(map))
}
