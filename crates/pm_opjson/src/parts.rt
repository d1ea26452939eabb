//! The parts of an op line that have a form of their own, most of which are read by the schema. One that is absent and must be
//! there is of a wrong shape; the codes of the faults within one are those of its reader.
ghost use Rattle.std.specs.Prelude.{◌<◌, length, IfOk};
ghost use Rattle.serde_json.specs.View.{view, items_view};
ghost use Rattle.pm_docjson.specs.Reading.{mark_of, node_of};
ghost use Rattle.pm_docjson.specs.declared.leaves.LeafContent.TheVariants.{Refused};
ghost use Rattle.pm_slicejson.specs.Reading.{slice_of};
ghost use Rattle.pm_stepjson.specs.Reading.{step_read};
ghost use Rattle.pm_head.specs.Answers.{Gives};
ghost use Rattle.pm_opjson.specs.Codes.{coded, node_coded};
ghost use Rattle.pm_opjson.specs.Parts.{step_from, step_in, step_list, steps_in, slice_in, node_in, mark_in, value_from, value_in, type_in, attrs_in};

use crate::codes::{node_fault, step_fault, value_fault};
use crate::fields::text_in;
use pm_apply::DocChange;
use pm_attrs::Attrs;
use pm_auto::TypeId;
use pm_docjson::{LeafContent, read_attrs, read_mark, read_node_with};
use pm_head::{Code, LineError};
use pm_list::Listed;
use pm_marks::Mark;
use pm_node::Node;
use pm_schema::{AnyType, Schema};
use pm_slice::Slice;
use pm_slicejson::read_slice;
use pm_step::Step;
use pm_stepjson::read_step;
use pm_value::Value as Given;
use serde_json::Value;
use std::alloc::{AllocError, Global};

/// The step at `step`.
pub(crate) fn step_in(alloc: Global, schema: &Schema, json: &Value) -> Result<Step, LineError>
    ensures { Gives (λ s. s) result (step_in schema.now.spec (view json.now)) }
{
    match json.get("step") {
        Some(step) => step_from(alloc, schema, step),
        None => Err(LineError::Code(Code::WrongShape)),
    }
}

/// The value as a step.
#[tactic(auto, using(crate::proofs::StepLaws::read_steps))]
fn step_from(alloc: Global, schema: &Schema, json: &Value) -> Result<Step, LineError>
    ensures { Gives (λ s. s) result (step_from schema.now.spec (view json.now)) }
{
    match read_step(alloc, schema, json) {
        Ok(step) => Ok(step),
        Err(error) => Err(step_fault(error)),
    }
}

/// The list of steps at `steps`, which may be empty, read from the front. `WrongShape` comes where it is no list; else the code
/// of the first fault of a step, by `step_fault`.
#[tactic(auto, unfolding(crate::specs::Parts::steps_in))]
pub fn steps_in(
    alloc: Global,
    schema: &Schema,
    json: &Value,
) -> Result<Listed<DocChange>, LineError>
    ensures { Gives (λ l. l) result (steps_in schema.now.spec (view json.now)) }
{
    let Some(value) = json.get("steps") else {
        return Err(LineError::Code(Code::WrongShape));
    };
    let Some(items) = value.as_array() else {
        return Err(LineError::Code(Code::WrongShape));
    };
    step_list(alloc, schema, items)
}

/// The values as steps.
#[tactic(auto, using(pm_list::specs::Readings::fronts), unfolding(crate::specs::Parts::step_list))]
fn step_list(
    alloc: Global,
    schema: &Schema,
    items: &[Value],
) -> Result<Listed<DocChange>, LineError>
    ensures { Gives (λ l. l) result (step_list schema.now.spec (items_view items.now)) }
{
    let mut steps = Listed::new(alloc);
    for item in items {
        let step = change_from(alloc, schema, item)?;
        steps.push(step)?;
    }
    Ok(steps)
}

/// The value as a step that is presented.
#[tactic(auto, using(crate::proofs::StepLaws::read_changes))]
fn change_from(alloc: Global, schema: &Schema, json: &Value) -> Result<DocChange, LineError>
    ensures { Gives (λ c. c) result (coded (step_read schema.now.spec (view json.now))) }
{
    match read_step(alloc, schema, json) {
        Ok(step) => match DocChange::new(alloc, step) {
            Ok(change) => Ok(change),
            Err(AllocError) => Err(LineError::NoMemory),
        },
        Err(error) => Err(step_fault(error)),
    }
}

/// The slice at `slice`; null is the empty slice.
pub(crate) fn slice_in(alloc: Global, schema: &Schema, json: &Value) -> Result<Slice, LineError>
    ensures { Gives (λ s. s) result (slice_in schema.now.spec (view json.now)) }
{
    match json.get("slice") {
        Some(slice) => slice_from(alloc, schema, slice),
        None => Err(LineError::Code(Code::WrongShape)),
    }
}

/// The value as a slice.
#[tactic(auto, using(crate::proofs::PartLaws::read_parts))]
fn slice_from(alloc: Global, schema: &Schema, json: &Value) -> Result<Slice, LineError>
    ensures { Gives (λ s. s) result (node_coded (slice_of schema.now.spec (view json.now))) }
{
    match read_slice(alloc, schema, json) {
        Ok(slice) => Ok(slice),
        Err(error) => Err(node_fault(error)),
    }
}

/// The node at `node`, in which leaf types have no content.
pub(crate) fn node_in(alloc: Global, schema: &Schema, json: &Value) -> Result<Node, LineError>
    ensures { Gives (λ n. n) result (node_in schema.now.spec (view json.now)) }
{
    match json.get("node") {
        Some(node) => node_from(alloc, schema, node),
        None => Err(LineError::Code(Code::WrongShape)),
    }
}

/// The value as a node.
#[tactic(auto, using(crate::proofs::PartLaws::read_parts))]
fn node_from(alloc: Global, schema: &Schema, json: &Value) -> Result<Node, LineError>
    ensures { Gives (λ n. n) result (node_coded (node_of schema.now.spec Refused (view json.now))) }
{
    match read_node_with(alloc, schema, LeafContent::Refused, json) {
        Ok(node) => Ok(node),
        Err(error) => Err(node_fault(error)),
    }
}

/// The mark at `mark`.
pub(crate) fn mark_in(
    alloc: Global,
    schema: &Schema,
    json: &Value,
) -> Result<Mark<Attrs>, LineError>
    ensures { Gives (λ m. m) result (mark_in schema.now.spec (view json.now)) }
{
    match json.get("mark") {
        Some(mark) => mark_from(alloc, schema, mark),
        None => Err(LineError::Code(Code::WrongShape)),
    }
}

/// The value as a mark.
#[tactic(auto, using(crate::proofs::PartLaws::read_parts))]
fn mark_from(alloc: Global, schema: &Schema, json: &Value) -> Result<Mark<Attrs>, LineError>
    ensures { Gives (λ m. m) result (node_coded (mark_of schema.now.spec (view json.now))) }
{
    match read_mark(alloc, schema, json) {
        Ok(mark) => Ok(mark),
        Err(error) => Err(node_fault(error)),
    }
}

/// The value at `value`, which must be there; null is one.
pub(crate) fn value_in(alloc: Global, json: &Value) -> Result<Given, LineError>
    ensures { Gives (λ v. v) result (value_in (view json.now)) }
{
    match json.get("value") {
        Some(value) => value_from(alloc, value),
        None => Err(LineError::Code(Code::WrongShape)),
    }
}

/// The JSON value as a value of an attribute.
#[tactic(auto, using(crate::proofs::ValueLaws::read_values))]
fn value_from(alloc: Global, json: &Value) -> Result<Given, LineError>
    ensures { Gives (λ v. v) result (value_from (view json.now)) }
{
    match Given::from_json(alloc, json) {
        Ok(value) => Ok(value),
        Err(error) => Err(value_fault(error)),
    }
}

/// The node type that `type` names; a name of none is unknown.
pub(crate) fn type_in(schema: &Schema, json: &Value) -> Result<TypeId, LineError>
    ensures named { Gives (λ k. k) result (type_in schema.now.spec (view json.now)) }
    ensures inside { IfOk result (λ k. k < length schema.now.spec.nodes) }
{
    let name = text_in(json, "type")?;
    match schema.node_named(name) {
        Some(kind) => Ok(kind),
        None => Err(LineError::Code(Code::UnknownName)),
    }
}

/// The attributes of a node of the type, where the field `attrs` gives their values. Where it is absent or null, none is given.
/// `WrongShape` comes where it is no object; `BadAttribute` where a value in it is none, or is for an attribute that the type
/// does not have, or one without default is missing.
#[tactic(auto, using(crate::proofs::PartLaws::read_parts))]
pub(crate) fn attrs_in(
    alloc: Global,
    schema: &Schema,
    kind: TypeId,
    json: &Value,
) -> Result<Attrs, LineError>
    requires { kind < length schema.now.spec.nodes }
    ensures { Gives (λ a. a) result (attrs_in schema.now.spec kind (view json.now)) }
{
    match read_attrs(alloc, schema, AnyType::Node(kind), json) {
        Ok(attrs) => Ok(attrs),
        Err(error) => Err(node_fault(error)),
    }
}
