//! The JSON of steps that set an attribute of the top node.
ghost use Rattle.std.specs.Prelude.{◌≡◌, ◌≤◌, IfOk, OnOk, Ok};
ghost use Rattle.serde_json.specs.View.{view};
ghost use Rattle.pm_value.specs.Plain.{depth};
ghost use Rattle.pm_value.specs.Reading.{value_of};
ghost use Rattle.pm_value.specs.Views.{plain};
ghost use Rattle.pm_value.specs.Writing.{written};
ghost use Rattle.pm_step.specs.Steps.{step_of};
ghost use Rattle.pm_stepjson.specs.Answers.{Gives};
ghost use Rattle.pm_stepjson.specs.DocAttr.{doc_attr_from, doc_attr_written};

use crate::fault::StepReadError;
use crate::fields::{text_of, value_at};
use pm_json::JsonRef;
use pm_step::{DocAttrStep, Step};
use pm_value::Text;
use serde_json::{Map, Value as Json, put};
use std::alloc::{AllocError, Global};

/// The step that the fields give.
#[tactic(auto, unfolding(crate::specs::DocAttr::doc_attr_from))]
pub(crate) fn doc_attr_from<J: JsonRef>(
    alloc: Global,
    json: J,
) -> Result<DocAttrStep, StepReadError>
    ensures { Gives (λ s. step_of (Step.DocAttr s)) result (doc_attr_from (J.seen json)) }
{
    let field = json.get("attr");
    let name = text_of(&field)?;
    let value = value_at(alloc, json)?;
    let attr = Text::from_str(alloc, name)?;
    Ok(DocAttrStep { attr, value })
}

/// The JSON value of a step that sets an attribute of the top node.
pub(crate) fn doc_attr_json(alloc: Global, step: &DocAttrStep) -> Result<Json, AllocError>
    ensures written { IfOk result (λ j. view j ≡ doc_attr_written step.now.attr (plain step.now.value)) }
    ensures again { OnOk result (depth (plain step.now.value) ≤ 4 → value_of (written (plain step.now.value)) ≡ Ok (plain step.now.value)) }
{
    let mut map = Map::new(alloc);
    let value = step.value.to_json(alloc)?;
    put(&mut map, alloc, "value", value)?;
    let name = Json::try_from_str(alloc, "docAttr")?;
    put(&mut map, alloc, "stepType", name)?;
    let attr = Json::try_from_str(alloc, step.attr.as_str())?;
    put(&mut map, alloc, "attr", attr)?;
    Ok(Json::Object(map))
}
