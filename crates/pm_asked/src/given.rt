//! What an authority answered, as a line brings it.
ghost use Rattle.serde_json.specs.View.{view, items_view};
ghost use Rattle.pm_head.specs.Answers.{Gives};
ghost use Rattle.pm_asked.specs.Given.{accepted_of, is_id_of, owner_list, owners_in, entries_of, given_of, given_in};

use pm_apply::DocChange;
use pm_head::{Code, LineError};
use pm_list::Listed;
use pm_opjson::{count_in, steps_in};
use pm_schema::Schema;
use pm_talk::id_from;
use serde_json::Value;
use std::alloc::Global;

/// What an authority answered.
#[derive(Drop)]
pub enum Given {
    /// So many steps that were submitted stand in the log from this place on.
    Accepted {
        count: u32,
        from: u32,
    },
    /// Entries of the log up to this version, and of each whether it has the client's own ID. There are as many of these, and no
    /// more than the version says.
    Entries {
        own: Listed<bool>,
        steps: Listed<DocChange>,
        version: u32,
    },
    /// The submission came to nothing.
    Kept,
}

/// The answer at `answer`, to the client with this ID.
pub fn given_in(alloc: Global, schema: &Schema, id: &str, json: &Value) -> Result<Given, LineError>
    ensures { Gives (λ g. g) result (given_in id.now schema.now.spec (view json.now)) }
{
    match json.get("answer") {
        Some(answer) => given_of(alloc, schema, id, answer),
        None => Err(LineError::Code(Code::WrongShape)),
    }
}

/// The value as an answer, by the first of these keys that it has: `accepted`, `steps`, and `refused` or `version`.
fn given_of(alloc: Global, schema: &Schema, id: &str, json: &Value) -> Result<Given, LineError>
    ensures { Gives (λ g. g) result (given_of id.now schema.now.spec (view json.now)) }
{
    if let Some(accepted) = json.get("accepted") {
        return accepted_of(accepted);
    }
    if json.get("steps").is_some() {
        return entries_of(alloc, schema, id, json);
    }
    if json.get("refused").is_some() || json.get("version").is_some() {
        return Ok(Given::Kept);
    }
    Err(LineError::Code(Code::WrongShape))
}

/// How many steps were accepted, and from where on they stand.
#[tactic(auto, unfolding(crate::specs::Given::accepted_of))]
fn accepted_of(json: &Value) -> Result<Given, LineError>
    ensures { Gives (λ g. g) result (accepted_of (view json.now)) }
{
    let count = count_in(json, "count")?;
    let from = count_in(json, "from")?;
    Ok(Given::Accepted { count, from })
}

/// The entries, with the IDs of those who made them, and the version at which they end.
#[tactic(auto, unfolding(crate::specs::Given::entries_of))]
fn entries_of(alloc: Global, schema: &Schema, id: &str, json: &Value) -> Result<Given, LineError>
    ensures { Gives (λ g. g) result (entries_of id.now schema.now.spec (view json.now)) }
{
    let own = owners_in(alloc, id, json)?;
    let steps = steps_in(alloc, schema, json)?;
    let version = count_in(json, "version")?;
    if own.len() != steps.len() || (version as usize) < steps.len() {
        return Err(LineError::Code(Code::WrongShape));
    }
    Ok(Given::Entries {
        own,
        steps,
        version,
    })
}

/// Of each ID of the list at `clientIDs` whether it is this one.
#[tactic(auto, unfolding(crate::specs::Given::owners_in))]
fn owners_in(alloc: Global, id: &str, json: &Value) -> Result<Listed<bool>, LineError>
    ensures { Gives (λ l. l) result (owners_in id.now (view json.now)) }
{
    let Some(value) = json.get("clientIDs") else {
        return Err(LineError::Code(Code::WrongShape));
    };
    let Some(items) = value.as_array() else {
        return Err(LineError::Code(Code::WrongShape));
    };
    owner_list(alloc, id, items)
}

/// Of each of these IDs whether it is this one.
#[tactic(auto, using(pm_list::specs::Readings::fronts), unfolding(crate::specs::Given::owner_list))]
fn owner_list(alloc: Global, id: &str, items: &[Value]) -> Result<Listed<bool>, LineError>
    ensures { Gives (λ l. l) result (owner_list id.now (items_view items.now)) }
{
    let mut own = Listed::new(alloc);
    for item in items {
        let is_own = is_id_of(alloc, id, item)?;
        own.push(is_own)?;
    }
    Ok(own)
}

/// Whether the value is this ID.
fn is_id_of(alloc: Global, id: &str, json: &Value) -> Result<bool, LineError>
    ensures { Gives (λ b. b) result (is_id_of id.now (view json.now)) }
{
    let name = id_from(alloc, json)?;
    Ok(name.as_str() == id)
}
