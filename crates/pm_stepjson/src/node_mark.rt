//! The JSON of steps that mark one node.
ghost use Rattle.std.specs.Prelude.{◌≡◌, true, IfOk, OnOk, Ok};
ghost use Rattle.serde_json.specs.View.{view};
ghost use Rattle.pm_docjson.specs.Reading.{mark_of};
ghost use Rattle.pm_docjson.specs.Writing.{mark_written};
ghost use Rattle.pm_docjson.specs.Writable.{mark_fits};
ghost use Rattle.pm_step.specs.Steps.{mark_in, step_of};
ghost use Rattle.pm_stepjson.specs.Answers.{Gives};
ghost use Rattle.pm_stepjson.specs.NodeMark.{node_from, node_written};
ghost use Rattle.pm_stepjson.specs.Writing.{step_written};

use crate::fault::StepReadError;
use crate::fields::{mark_at, number_at};
use pm_attrs::Attrs;
use pm_docjson::write_mark;
use pm_json::JsonRef;
use pm_marks::Mark;
use pm_schema::Schema;
use pm_step::{Marking, NodeMarkStep, Step};
use serde_json::{Map, Value as Json, put};
use std::alloc::{AllocError, Global};

/// A position, and a mark.
#[derive(Drop)]
pub(crate) struct AtNode {
    pub(crate) pos: u64,
    pub(crate) mark: Mark<Attrs>,
}

/// The position and the mark that the fields give.
#[tactic(auto, unfolding(crate::specs::NodeMark::node_from))]
pub(crate) fn node_from<J: JsonRef>(
    alloc: Global,
    schema: &Schema,
    json: J,
) -> Result<AtNode, StepReadError>
    ensures { Gives (λ n. n) result (node_from schema.now.spec (J.seen json)) }
{
    let pos = number_at(json, "pos")?;
    let mark = mark_at(alloc, schema, json)?;
    Ok(AtNode { pos, mark })
}

/// The JSON value of a step that adds or removes the mark of a node.
pub(crate) fn node_json(
    alloc: Global,
    schema: &Schema,
    step: &NodeMarkStep,
) -> Result<Json, AllocError>
    ensures written { IfOk result (λ j. view j ≡ step_written schema.now.spec (step_of (Step.NodeMark step.now))) }
    ensures again { OnOk result (mark_fits schema.now.spec (mark_in step.now.marking) ≡ true
        → mark_of schema.now.spec (mark_written schema.now.spec (mark_in step.now.marking)) ≡ Ok (mark_in step.now.marking)) }
{
    match &step.marking {
        Marking::Add(mark) => named_json(alloc, schema, "addNodeMark", step.pos, mark),
        Marking::Remove(mark) => named_json(alloc, schema, "removeNodeMark", step.pos, mark),
    }
}

/// The JSON value of a step of this name.
fn named_json(
    alloc: Global,
    schema: &Schema,
    name: &str,
    pos: u64,
    mark: &Mark<Attrs>,
) -> Result<Json, AllocError>
    ensures written { IfOk result (λ j. view j ≡ node_written schema.now.spec name.now pos mark.now) }
    ensures again { OnOk result (mark_fits schema.now.spec mark.now ≡ true
        → mark_of schema.now.spec (mark_written schema.now.spec mark.now) ≡ Ok mark.now) }
{
    let mut map = Map::new(alloc);
    let name = Json::try_from_str(alloc, name)?;
    put(&mut map, alloc, "stepType", name)?;
    put(&mut map, alloc, "pos", Json::from(pos))?;
    let mark = write_mark(alloc, schema, mark)?;
    put(&mut map, alloc, "mark", mark)?;
    Ok(Json::Object(map))
}
