//! JSON values as steps.
ghost use Rattle.pm_step.specs.Steps.{step_of};
ghost use Rattle.pm_stepjson.specs.Answers.{Gives};
ghost use Rattle.pm_stepjson.specs.Reading.{kind_from, step_read};

use crate::around::around_from;
use crate::attr::attr_from;
use crate::doc_attr::doc_attr_from;
use crate::fault::StepReadError;
use crate::fields::text_of;
use crate::kind::Kind;
use crate::mark::{Ranged, range_from};
use crate::node_mark::{AtNode, node_from};
use crate::replace::replace_from;
use pm_json::JsonRef;
use pm_schema::Schema;
use pm_step::{MarkStep, Marking, NodeMarkStep, Step};
use std::alloc::Global;

/// The step of a JSON value. A slice that is absent or null is the empty one, and a `structure` that is absent or null is false;
/// a `value` must be there, and null is a value. Whether a type has the attribute is asked where the step is applied.
/// ProseMirror: `Step.fromJSON`.
///
/// # Errors
///
/// The first fault in the order `stepType` and then the fields of that kind.
/// - `Shape`: a field is missing that must be there, or is of another kind: a position or `insert` is a whole number from 0 to
///   4,294,967,295, `structure` a truth value, `attr` a text.
/// - `UnknownKind`: no kind of steps has the name.
/// - `Slice`, `Mark`, `Value`: the first fault of the slice, of the mark, or of the value.
#[tactic(auto, unfolding(crate::specs::Reading::step_read))]
pub fn read_step<J: JsonRef>(alloc: Global, schema: &Schema, json: J) -> Result<Step, StepReadError>
    ensures { Gives step_of result (step_read schema.now.spec (J.seen json)) }
{
    let field = json.get("stepType");
    let name = text_of(&field)?;
    let kind = Kind::named(name).ok_or(StepReadError::UnknownKind)?;
    kind_from(alloc, schema, kind, json)
}

/// The step of this kind.
fn kind_from<J: JsonRef>(
    alloc: Global,
    schema: &Schema,
    kind: Kind,
    json: J,
) -> Result<Step, StepReadError>
    ensures { Gives step_of result (kind_from schema.now.spec kind (J.seen json)) }
{
    match kind {
        Kind::Replace => Ok(Step::Replace(replace_from(alloc, schema, json)?)),
        Kind::ReplaceAround => Ok(Step::ReplaceAround(around_from(alloc, schema, json)?)),
        Kind::AddMark => {
            let Ranged { from, to, mark } = range_from(alloc, schema, json)?;
            let marking = Marking::Add(mark);
            Ok(Step::Mark(MarkStep { from, to, marking }))
        }
        Kind::RemoveMark => {
            let Ranged { from, to, mark } = range_from(alloc, schema, json)?;
            let marking = Marking::Remove(mark);
            Ok(Step::Mark(MarkStep { from, to, marking }))
        }
        Kind::AddNodeMark => {
            let AtNode { pos, mark } = node_from(alloc, schema, json)?;
            let marking = Marking::Add(mark);
            Ok(Step::NodeMark(NodeMarkStep { pos, marking }))
        }
        Kind::RemoveNodeMark => {
            let AtNode { pos, mark } = node_from(alloc, schema, json)?;
            let marking = Marking::Remove(mark);
            Ok(Step::NodeMark(NodeMarkStep { pos, marking }))
        }
        Kind::Attr => Ok(Step::Attr(attr_from(alloc, json)?)),
        Kind::DocAttr => Ok(Step::DocAttr(doc_attr_from(alloc, json)?)),
    }
}
