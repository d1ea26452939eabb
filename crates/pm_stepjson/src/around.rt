//! The JSON of a replaceAround.
ghost use Rattle.std.specs.Prelude.{◌≡◌, IfOk, OnOk};
ghost use Rattle.serde_json.specs.View.{view};
ghost use Rattle.pm_docjson.specs.Writable.{AreWritable};
ghost use Rattle.pm_step.specs.Steps.{step_of};
ghost use Rattle.pm_stepjson.specs.Answers.{Gives};
ghost use Rattle.pm_stepjson.specs.Members.{SliceAgain};
ghost use Rattle.pm_stepjson.specs.Around.{around_from};
ghost use Rattle.pm_stepjson.specs.Writing.{step_written};

use crate::fault::StepReadError;
use crate::fields::{number_at, slice_at, structure_at};
use crate::members::replaced;
use pm_json::JsonRef;
use pm_schema::Schema;
use pm_step::{ReplaceAroundStep, Step};
use serde_json::{Value as Json, put};
use std::alloc::{AllocError, Global};

/// The replaceAround that the fields give.
#[tactic(auto, unfolding(crate::specs::Around::around_from))]
pub(crate) fn around_from<J: JsonRef>(
    alloc: Global,
    schema: &Schema,
    json: J,
) -> Result<ReplaceAroundStep, StepReadError>
    ensures { Gives (λ s. step_of (Step.ReplaceAround s)) result (around_from schema.now.spec (J.seen json)) }
{
    let from = number_at(json, "from")?;
    let to = number_at(json, "to")?;
    let gap_from = number_at(json, "gapFrom")?;
    let gap_to = number_at(json, "gapTo")?;
    let insert = number_at(json, "insert")?;
    let slice = slice_at(alloc, schema, json)?;
    let structure = structure_at(json)?;
    Ok(ReplaceAroundStep {
        from,
        to,
        gap_from,
        gap_to,
        slice,
        insert,
        structure,
    })
}

/// The JSON value of a replaceAround.
#[tactic(auto, using(crate::proofs::ObjectLaws::puts))]
pub(crate) fn around_json(
    alloc: Global,
    schema: &Schema,
    step: &ReplaceAroundStep,
) -> Result<Json, AllocError>
    ensures written { IfOk result (λ j. view j ≡ step_written schema.now.spec (step_of (Step.ReplaceAround step.now))) }
    ensures again { OnOk result (AreWritable schema.now.spec step.now.slice.content → SliceAgain schema.now.spec step.now.slice) }
{
    let mut map = replaced(
        alloc,
        schema,
        "replaceAround",
        step.to,
        &step.slice,
        step.structure,
    )?;
    put(&mut map, alloc, "insert", Json::from(step.insert))?;
    put(&mut map, alloc, "gapTo", Json::from(step.gap_to))?;
    put(&mut map, alloc, "gapFrom", Json::from(step.gap_from))?;
    put(&mut map, alloc, "from", Json::from(step.from))?;
    Ok(Json::Object(map))
}
