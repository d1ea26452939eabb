//! Steps as JSON values.
ghost use Rattle.std.specs.Prelude.{◌≡◌, IfOk, Ok};
ghost use Rattle.serde_json.specs.View.{view};
ghost use Rattle.pm_step.specs.Steps.{step_of};
ghost use Rattle.pm_stepjson.specs.Reading.{step_read};
ghost use Rattle.pm_stepjson.specs.Writing.{step_written};
ghost use Rattle.pm_stepjson.specs.Writable.{CanBeWritten, HasCounts};

use crate::around::around_json;
use crate::attr::attr_json;
use crate::doc_attr::doc_attr_json;
use crate::mark::range_json;
use crate::node_mark::node_json;
use crate::replace::replace_json;
use pm_schema::Schema;
use pm_step::Step;
use serde_json::Value as Json;
use std::alloc::{AllocError, Global};

/// The JSON value of a step: `stepType` and the fields of its kind, where `slice` is left out if the slice is empty and
/// `structure` if it is false. It is read back as the same step where the content of its slice, its mark or its value can be
/// written, and its positions and `insert` are 4,294,967,295 at most. A value can be written where it nests at most four levels
/// deep.
pub fn write_step(alloc: Global, schema: &Schema, step: &Step) -> Result<Json, AllocError>
    ensures written { IfOk result (λ j. view j ≡ step_written schema.now.spec (step_of step.now)) }
    ensures again { IfOk result (λ j. CanBeWritten schema.now.spec (step_of step.now) → HasCounts (step_of step.now)
        → step_read schema.now.spec (view j) ≡ Ok (step_of step.now)) }
{
    match step {
        Step::Replace(step) => replace_json(alloc, schema, step),
        Step::ReplaceAround(step) => around_json(alloc, schema, step),
        Step::Mark(step) => range_json(alloc, schema, step),
        Step::NodeMark(step) => node_json(alloc, schema, step),
        Step::Attr(step) => attr_json(alloc, step),
        Step::DocAttr(step) => doc_attr_json(alloc, step),
    }
}
