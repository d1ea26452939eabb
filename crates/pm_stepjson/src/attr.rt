//! The JSON of steps that set an attribute of a node.
ghost use Rattle.std.specs.Prelude.{◌≡◌, ◌≤◌, IfOk, OnOk, Ok};
ghost use Rattle.serde_json.specs.View.{view};
ghost use Rattle.pm_value.specs.Plain.{depth};
ghost use Rattle.pm_value.specs.Reading.{value_of};
ghost use Rattle.pm_value.specs.Views.{plain};
ghost use Rattle.pm_value.specs.Writing.{written};
ghost use Rattle.pm_step.specs.Steps.{step_of};
ghost use Rattle.pm_stepjson.specs.Answers.{Gives};
ghost use Rattle.pm_stepjson.specs.Attr.{attr_from, attr_written};

use crate::fault::StepReadError;
use crate::fields::{number_at, text_of, value_at};
use pm_json::JsonRef;
use pm_step::{AttrStep, Step};
use pm_value::Text;
use serde_json::{Map, Value as Json, put};
use std::alloc::{AllocError, Global};

/// The step that the fields give.
#[tactic(auto, unfolding(crate::specs::Attr::attr_from))]
pub(crate) fn attr_from<J: JsonRef>(alloc: Global, json: J) -> Result<AttrStep, StepReadError>
    ensures { Gives (λ s. step_of (Step.Attr s)) result (attr_from (J.seen json)) }
{
    let pos = number_at(json, "pos")?;
    let field = json.get("attr");
    let name = text_of(&field)?;
    let value = value_at(alloc, json)?;
    let attr = Text::from_str(alloc, name)?;
    Ok(AttrStep { pos, attr, value })
}

/// The JSON value of a step that sets an attribute of a node.
pub(crate) fn attr_json(alloc: Global, step: &AttrStep) -> Result<Json, AllocError>
    ensures written { IfOk result (λ j. view j ≡ attr_written step.now.pos step.now.attr (plain step.now.value)) }
    ensures again { OnOk result (depth (plain step.now.value) ≤ 4 → value_of (written (plain step.now.value)) ≡ Ok (plain step.now.value)) }
{
    let mut map = Map::new(alloc);
    let value = step.value.to_json(alloc)?;
    put(&mut map, alloc, "value", value)?;
    let name = Json::try_from_str(alloc, "attr")?;
    put(&mut map, alloc, "stepType", name)?;
    put(&mut map, alloc, "pos", Json::from(step.pos))?;
    let attr = Json::try_from_str(alloc, step.attr.as_str())?;
    put(&mut map, alloc, "attr", attr)?;
    Ok(Json::Object(map))
}
