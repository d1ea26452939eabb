//! Lines that are read without a value of them: as a tree, which borrows the line's texts. A line with a fault is left, and
//! gets its code as a value.
ghost use Rattle.std.specs.Prelude.{◌≡◌, codes, map, Ok, Some, IfOk, IfSome};
ghost use Rattle.json.specs.Value.{value_view};
ghost use Rattle.serde_json.specs.Data.{Data};
ghost use Rattle.serde_json.specs.Read.{of_json};
ghost use Rattle.serde_json.specs.View.{view, items_of};
ghost use Rattle.pm_opjson.specs.Codes.{coded};
ghost use Rattle.pm_opjson.specs.Fields.{number_in};
ghost use Rattle.pm_opjson.specs.Parts.{steps_in, step_list};
ghost use Rattle.pm_stepjson.specs.Reading.{step_read};
ghost use Rattle.pm_talk.specs.Asked.{asked_line, asked_of, submit_in, since_in, word_in};
ghost use Rattle.pm_talk.specs.Fields.{id_in, id_from};

use crate::asked::{Asked, Word, most_in, word_named};
use crate::fields::id_from;
use json::{Scratch, Value as Tree};
use pm_apply::DocChange;
use pm_head::{LineError, tree_line};
use pm_json::{JsonRef, TreeRef};
use pm_list::Listed;
use pm_opjson::step_fault;
use pm_schema::Schema;
use pm_slicejson::as_count;
use pm_stepjson::read_step;
use pm_value::Text;
use serde_json::Value;
use std::alloc::{AllocError, Global};

/// What the line asks, where it is read without a value of it; `None` says nothing of the line.
#[tactic(auto, unfolding(crate::specs::Asked::asked_line))]
pub(crate) fn asked_at_once(
    alloc: Global,
    schema: &Schema,
    line: &[u8],
) -> Result<Option<Asked>, AllocError>
    ensures { IfOk result (λ o. IfSome o (λ a. asked_line schema.now.spec line.now ≡ Ok a)) }
{
    let mut scratch = Scratch::new(alloc);
    match tree_line(alloc, line, &mut scratch)? {
        Some(tree) => asked_of_tree(alloc, schema, &tree),
        None => Ok(None),
    }
}

/// What a tree asks, where each number in it is in the range of one.
fn asked_of_tree(
    alloc: Global,
    schema: &Schema,
    tree: &Tree<'_>,
) -> Result<Option<Asked>, AllocError>
    ensures { IfOk result (λ o. IfSome o (λ a. (d : Data) × (of_json (value_view tree.now) ≡ Some d) × (asked_of schema.now.spec d ≡ Ok a))) }
{
    match TreeRef::new(tree) {
        Some(json) => asked_at(alloc, schema, json),
        None => Ok(None),
    }
}

/// What a value asks.
#[tactic(auto, unfolding(crate::specs::Asked::asked_of))]
fn asked_at<J: JsonRef>(
    alloc: Global,
    schema: &Schema,
    json: J,
) -> Result<Option<Asked>, AllocError>
    ensures { IfOk result (λ o. IfSome o (λ a. asked_of schema.now.spec (J.seen json) ≡ Ok a)) }
{
    match word_at(json) {
        Some(Word::Submit) => submission_at(alloc, schema, json),
        Some(Word::Since) => Ok(since_at(json)),
        Some(Word::Doc) => Ok(Some(Asked::Doc)),
        None => Ok(None),
    }
}

/// The word that `op` says.
fn word_at<J: JsonRef>(json: J) -> Option<Word>
    ensures { IfSome result (λ w. word_in (J.seen json) ≡ Ok w) }
{
    let field = json.get("op")?;
    let text = field.as_str()?;
    word_named(text)
}

/// The value as one that asks for the log.
#[tactic(auto, unfolding(crate::specs::Asked::since_in))]
fn since_at<J: JsonRef>(json: J) -> Option<Asked>
    ensures { IfSome result (λ a. since_in (J.seen json) ≡ Ok a) }
{
    let version = version_at(json)?;
    match most_in(json) {
        Ok(most) => Some(Asked::Since { version, most }),
        Err(_) => None,
    }
}

/// The version.
fn version_at<J: JsonRef>(json: J) -> Option<u32>
    ensures { IfSome result (λ n. number_in (codes "version") (J.seen json) ≡ Ok n) }
{
    let field = json.get("version")?;
    let number = as_count(field)?;
    Some(number as u32)
}

/// The value as one that submits steps.
#[tactic(auto, unfolding(crate::specs::Asked::submit_in))]
fn submission_at<J: JsonRef>(
    alloc: Global,
    schema: &Schema,
    json: J,
) -> Result<Option<Asked>, AllocError>
    ensures { IfOk result (λ o. IfSome o (λ a. submit_in schema.now.spec (J.seen json) ≡ Ok a)) }
{
    let Some(version) = version_at(json) else {
        return Ok(None);
    };
    let Some(id) = id_at(alloc, json)? else {
        return Ok(None);
    };
    let Some(steps) = steps_at(alloc, schema, json)? else {
        return Ok(None);
    };
    Ok(Some(Asked::Submit { version, id, steps }))
}

/// The ID of a client, where it is a text or a whole number from 0 on.
fn id_at<J: JsonRef>(alloc: Global, json: J) -> Result<Option<Text>, AllocError>
    ensures { IfOk result (λ o. IfSome o (λ t. id_in (J.seen json) ≡ Ok t)) }
{
    let Some(field) = json.get("clientID") else {
        return Ok(None);
    };
    let Some(value) = id_value(alloc, field)? else {
        return Ok(None);
    };
    match id_from(alloc, &value) {
        Ok(id) => Ok(Some(id)),
        Err(LineError::NoMemory) => Err(AllocError),
        Err(LineError::Code(_)) => Ok(None),
    }
}

/// The value, where it is a text or a whole number from 0 on.
#[tactic(auto, using(crate::proofs::IdLaws::ids_seen))]
fn id_value<J: JsonRef>(alloc: Global, json: J) -> Result<Option<Value>, AllocError>
    ensures { IfOk result (λ o. IfSome o (λ v. view v ≡ J.seen json)) }
{
    if let Some(number) = json.as_u64() {
        return Ok(Some(Value::from(number)));
    }
    match json.as_str() {
        Some(text) => Ok(Some(Value::String(String::from_str(alloc, text)?))),
        None => Ok(None),
    }
}

/// The steps that a line submits.
#[tactic(auto, unfolding(pm_opjson::specs::Parts::steps_in))]
fn steps_at<J: JsonRef>(
    alloc: Global,
    schema: &Schema,
    json: J,
) -> Result<Option<Listed<DocChange>>, AllocError>
    ensures { IfOk result (λ o. IfSome o (λ l. steps_in schema.now.spec (J.seen json) ≡ Ok l)) }
{
    let Some(field) = json.get("steps") else {
        return Ok(None);
    };
    let Some(items) = field.items(alloc)? else {
        return Ok(None);
    };
    step_list(alloc, schema, items.as_slice())
}

/// The values as steps.
#[tactic(auto, using(pm_list::specs::Readings::fronts), unfolding(pm_opjson::specs::Parts::step_list))]
fn step_list<J: JsonRef>(
    alloc: Global,
    schema: &Schema,
    items: &[J],
) -> Result<Option<Listed<DocChange>>, AllocError>
    ensures { IfOk result (λ o. IfSome o (λ l. step_list schema.now.spec (items_of (map J.seen items.now)) ≡ Ok l)) }
{
    let mut steps = Listed::new(alloc);
    for &item in items {
        match change_at(alloc, schema, item)? {
            Some(change) => steps.push(change)?,
            None => return Ok(None),
        }
    }
    Ok(Some(steps))
}

/// The value as a step that is presented.
#[tactic(auto, using(pm_opjson::proofs::StepLaws::read_changes))]
fn change_at<J: JsonRef>(
    alloc: Global,
    schema: &Schema,
    json: J,
) -> Result<Option<DocChange>, AllocError>
    ensures { IfOk result (λ o. IfSome o (λ c. coded (step_read schema.now.spec (J.seen json)) ≡ Ok c)) }
{
    match read_step(alloc, schema, json) {
        Ok(step) => Ok(Some(DocChange::new(alloc, step)?)),
        Err(error) => match step_fault(error) {
            LineError::NoMemory => Err(AllocError),
            LineError::Code(_) => Ok(None),
        },
    }
}
