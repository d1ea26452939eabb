//! The JSON of steps that mark a range.
ghost use Rattle.std.specs.Prelude.{◌≡◌, true, IfOk, OnOk, Ok};
ghost use Rattle.serde_json.specs.View.{view};
ghost use Rattle.pm_docjson.specs.Reading.{mark_of};
ghost use Rattle.pm_docjson.specs.Writing.{mark_written};
ghost use Rattle.pm_docjson.specs.Writable.{mark_fits};
ghost use Rattle.pm_step.specs.Steps.{mark_in, step_of};
ghost use Rattle.pm_stepjson.specs.Answers.{Gives};
ghost use Rattle.pm_stepjson.specs.Mark.{range_from, range_written};
ghost use Rattle.pm_stepjson.specs.Writing.{step_written};

use crate::fault::StepReadError;
use crate::fields::{mark_at, number_at};
use pm_attrs::Attrs;
use pm_docjson::write_mark;
use pm_json::JsonRef;
use pm_marks::Mark;
use pm_schema::Schema;
use pm_step::{MarkStep, Marking, Step};
use serde_json::{Map, Value as Json, put};
use std::alloc::{AllocError, Global};

/// The ends of a range, and a mark.
#[derive(Drop)]
pub(crate) struct Ranged {
    pub(crate) from: u64,
    pub(crate) to: u64,
    pub(crate) mark: Mark<Attrs>,
}

/// The ends and the mark that the fields give.
#[tactic(auto, unfolding(crate::specs::Mark::range_from))]
pub(crate) fn range_from<J: JsonRef>(
    alloc: Global,
    schema: &Schema,
    json: J,
) -> Result<Ranged, StepReadError>
    ensures { Gives (λ r. r) result (range_from schema.now.spec (J.seen json)) }
{
    let from = number_at(json, "from")?;
    let to = number_at(json, "to")?;
    let mark = mark_at(alloc, schema, json)?;
    Ok(Ranged { from, to, mark })
}

/// The JSON value of a step that adds or removes a mark over a range.
pub(crate) fn range_json(
    alloc: Global,
    schema: &Schema,
    step: &MarkStep,
) -> Result<Json, AllocError>
    ensures written { IfOk result (λ j. view j ≡ step_written schema.now.spec (step_of (Step.Mark step.now))) }
    ensures again { OnOk result (mark_fits schema.now.spec (mark_in step.now.marking) ≡ true
        → mark_of schema.now.spec (mark_written schema.now.spec (mark_in step.now.marking)) ≡ Ok (mark_in step.now.marking)) }
{
    match &step.marking {
        Marking::Add(mark) => named_json(alloc, schema, "addMark", step.from, step.to, mark),
        Marking::Remove(mark) => named_json(alloc, schema, "removeMark", step.from, step.to, mark),
    }
}

/// The JSON value of a step of this name.
fn named_json(
    alloc: Global,
    schema: &Schema,
    name: &str,
    from: u64,
    to: u64,
    mark: &Mark<Attrs>,
) -> Result<Json, AllocError>
    ensures written { IfOk result (λ j. view j ≡ range_written schema.now.spec name.now from to mark.now) }
    ensures again { OnOk result (mark_fits schema.now.spec mark.now ≡ true
        → mark_of schema.now.spec (mark_written schema.now.spec mark.now) ≡ Ok mark.now) }
{
    let mut map = Map::new(alloc);
    put(&mut map, alloc, "to", Json::from(to))?;
    let name = Json::try_from_str(alloc, name)?;
    put(&mut map, alloc, "stepType", name)?;
    let mark = write_mark(alloc, schema, mark)?;
    put(&mut map, alloc, "mark", mark)?;
    put(&mut map, alloc, "from", Json::from(from))?;
    Ok(Json::Object(map))
}
