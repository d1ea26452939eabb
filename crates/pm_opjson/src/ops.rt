//! The fourteen edits, each read by the fields of its line.
ghost use Rattle.serde_json.specs.View.{view};
ghost use Rattle.pm_head.specs.Answers.{Gives};
ghost use Rattle.pm_opjson.specs.Ops.{step_op, text_op, delete_op, paste_op, insert_op, split_op, join_op, wrap_op, lift_op, set_type_op, add_mark_op, remove_mark_op, attr_op, doc_attr_op, op_of};

use crate::fields::{depth_in, number_in, text_in};
use crate::kinds::EditKind;
use crate::parts::{attrs_in, mark_in, node_in, slice_in, step_in, type_in, value_in};
use pm_head::LineError;
use pm_ops::Op;
use pm_schema::Schema;
use pm_value::Text;
use serde_json::Value;
use std::alloc::Global;

/// The edit of this kind that a line's JSON value is by the schema, or the code of the first fault of its fields, in the order in
/// which specs/Ops.antt names them. Positions count tokens from 0. `WrongShape` comes of a field that is absent or of another kind,
/// `UnknownName` of a type that the schema does not have; the codes within a part are those of its reader.
pub fn read_op(
    alloc: Global,
    schema: &Schema,
    kind: EditKind,
    json: &Value,
) -> Result<Op, LineError>
    ensures { Gives (λ o. o) result (op_of schema.now.spec kind (view json.now)) }
{
    match kind {
        EditKind::Step => step_op(alloc, schema, json),
        EditKind::Text => text_op(alloc, json),
        EditKind::Delete => delete_op(json),
        EditKind::Paste => paste_op(alloc, schema, json),
        EditKind::Insert => insert_op(alloc, schema, json),
        EditKind::Split => split_op(json),
        EditKind::Join => join_op(json),
        EditKind::Wrap => wrap_op(alloc, schema, json),
        EditKind::Lift => lift_op(json),
        EditKind::SetType => set_type_op(alloc, schema, json),
        EditKind::AddMark => add_mark_op(alloc, schema, json),
        EditKind::RemoveMark => remove_mark_op(alloc, schema, json),
        EditKind::Attr => attr_op(alloc, json),
        EditKind::DocAttr => doc_attr_op(alloc, json),
    }
}

#[tactic(auto, unfolding(crate::specs::Ops::step_op))]
fn step_op(alloc: Global, schema: &Schema, json: &Value) -> Result<Op, LineError>
    ensures { Gives (λ o. o) result (step_op schema.now.spec (view json.now)) }
{
    let step = step_in(alloc, schema, json)?;
    Ok(Op::Step(step))
}

#[tactic(auto, unfolding(crate::specs::Ops::text_op))]
fn text_op(alloc: Global, json: &Value) -> Result<Op, LineError>
    ensures { Gives (λ o. o) result (text_op (view json.now)) }
{
    let from = number_in(json, "from")?;
    let to = number_in(json, "to")?;
    let given = text_in(json, "text")?;
    let text = Text::from_str(alloc, given)?;
    Ok(Op::InsertText { from, to, text })
}

#[tactic(auto, unfolding(crate::specs::Ops::delete_op))]
fn delete_op(json: &Value) -> Result<Op, LineError>
    ensures { Gives (λ o. o) result (delete_op (view json.now)) }
{
    let from = number_in(json, "from")?;
    let to = number_in(json, "to")?;
    Ok(Op::Delete { from, to })
}

#[tactic(auto, unfolding(crate::specs::Ops::paste_op))]
fn paste_op(alloc: Global, schema: &Schema, json: &Value) -> Result<Op, LineError>
    ensures { Gives (λ o. o) result (paste_op schema.now.spec (view json.now)) }
{
    let from = number_in(json, "from")?;
    let to = number_in(json, "to")?;
    let slice = slice_in(alloc, schema, json)?;
    Ok(Op::Paste { from, to, slice })
}

#[tactic(auto, unfolding(crate::specs::Ops::insert_op))]
fn insert_op(alloc: Global, schema: &Schema, json: &Value) -> Result<Op, LineError>
    ensures { Gives (λ o. o) result (insert_op schema.now.spec (view json.now)) }
{
    let pos = number_in(json, "pos")?;
    let node = node_in(alloc, schema, json)?;
    Ok(Op::InsertNode { pos, node })
}

#[tactic(auto, unfolding(crate::specs::Ops::split_op))]
fn split_op(json: &Value) -> Result<Op, LineError>
    ensures { Gives (λ o. o) result (split_op (view json.now)) }
{
    let pos = number_in(json, "pos")?;
    let depth = depth_in(json)?;
    Ok(Op::Split { pos, depth })
}

#[tactic(auto, unfolding(crate::specs::Ops::join_op))]
fn join_op(json: &Value) -> Result<Op, LineError>
    ensures { Gives (λ o. o) result (join_op (view json.now)) }
{
    let pos = number_in(json, "pos")?;
    let depth = depth_in(json)?;
    Ok(Op::Join { pos, depth })
}

#[tactic(auto, unfolding(crate::specs::Ops::wrap_op))]
fn wrap_op(alloc: Global, schema: &Schema, json: &Value) -> Result<Op, LineError>
    ensures { Gives (λ o. o) result (wrap_op schema.now.spec (view json.now)) }
{
    let from = number_in(json, "from")?;
    let to = number_in(json, "to")?;
    let kind = type_in(schema, json)?;
    let attrs = attrs_in(alloc, schema, kind, json)?;
    Ok(Op::Wrap {
        from,
        to,
        kind,
        attrs,
    })
}

#[tactic(auto, unfolding(crate::specs::Ops::lift_op))]
fn lift_op(json: &Value) -> Result<Op, LineError>
    ensures { Gives (λ o. o) result (lift_op (view json.now)) }
{
    let pos = number_in(json, "pos")?;
    Ok(Op::Lift { pos })
}

#[tactic(auto, unfolding(crate::specs::Ops::set_type_op))]
fn set_type_op(alloc: Global, schema: &Schema, json: &Value) -> Result<Op, LineError>
    ensures { Gives (λ o. o) result (set_type_op schema.now.spec (view json.now)) }
{
    let pos = number_in(json, "pos")?;
    let kind = type_in(schema, json)?;
    let attrs = attrs_in(alloc, schema, kind, json)?;
    Ok(Op::SetType { pos, kind, attrs })
}

#[tactic(auto, unfolding(crate::specs::Ops::add_mark_op))]
fn add_mark_op(alloc: Global, schema: &Schema, json: &Value) -> Result<Op, LineError>
    ensures { Gives (λ o. o) result (add_mark_op schema.now.spec (view json.now)) }
{
    let from = number_in(json, "from")?;
    let to = number_in(json, "to")?;
    let mark = mark_in(alloc, schema, json)?;
    Ok(Op::AddMark { from, to, mark })
}

#[tactic(auto, unfolding(crate::specs::Ops::remove_mark_op))]
fn remove_mark_op(alloc: Global, schema: &Schema, json: &Value) -> Result<Op, LineError>
    ensures { Gives (λ o. o) result (remove_mark_op schema.now.spec (view json.now)) }
{
    let from = number_in(json, "from")?;
    let to = number_in(json, "to")?;
    let mark = mark_in(alloc, schema, json)?;
    Ok(Op::RemoveMark { from, to, mark })
}

#[tactic(auto, unfolding(crate::specs::Ops::attr_op))]
fn attr_op(alloc: Global, json: &Value) -> Result<Op, LineError>
    ensures { Gives (λ o. o) result (attr_op (view json.now)) }
{
    let pos = number_in(json, "pos")?;
    let name = text_in(json, "attr")?;
    let value = value_in(alloc, json)?;
    let attr = Text::from_str(alloc, name)?;
    Ok(Op::SetAttr { pos, attr, value })
}

#[tactic(auto, unfolding(crate::specs::Ops::doc_attr_op))]
fn doc_attr_op(alloc: Global, json: &Value) -> Result<Op, LineError>
    ensures { Gives (λ o. o) result (doc_attr_op (view json.now)) }
{
    let name = text_in(json, "attr")?;
    let value = value_in(alloc, json)?;
    let attr = Text::from_str(alloc, name)?;
    Ok(Op::SetDocAttr { attr, value })
}
