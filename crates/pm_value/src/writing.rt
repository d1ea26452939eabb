//! Values as JSON values.
ghost use Rattle.std.specs.Prelude.{◌≡◌, ◌≤◌, IfOk, Ok, map};
ghost use Rattle.serde_json.specs.View.{view, items_view, members_view};
ghost use Rattle.pm_value.specs.Plain.{plains_of, depth};
ghost use Rattle.pm_value.specs.Views.{plain, plains, field_pairs};
ghost use Rattle.pm_value.specs.Reading.{value_of};
ghost use Rattle.pm_value.specs.Kept.{IsKept, AreKept};
ghost use Rattle.pm_value.specs.Writing.{written, items_written, pairs_written};

use crate::value::{Field, Value};
use serde_json::{Map, Value as Json, put};
use std::alloc::{AllocError, Global};

impl Value {
    /// The JSON value of this value. `from_json` reads it back as this value, where it nests at most four levels deep.
    pub fn to_json(&self, alloc: Global) -> Result<Json, AllocError>
        ensures written { IfOk result (λ j. view j ≡ written (plain self.now)) }
        ensures again { IfOk result (λ j. depth (plain self.now) ≤ 4 → value_of (view j) ≡ Ok (plain self.now)) }
    {
        json_of(alloc, self)
    }
}

#[cycle(write)]
#[tactic(auto, using(crate::proofs::Seen::seen, crate::proofs::Keeping::kept), unfolding(crate::specs::Writing::written))]
fn json_of(alloc: Global, value: &Value) -> Result<Json, AllocError>
    ensures written { IfOk result (λ j. view j ≡ written (plain value.now)) }
    ensures kept { IfOk result (λ _. IsKept (plain value.now)) }
{
    match value {
        Value::Null => Ok(Json::Null),
        Value::Bool(truth) => Ok(Json::Bool(*truth)),
        Value::Int(n) => Ok(Json::from(*n)),
        Value::Text(text) => Ok(Json::try_from_str(alloc, text.as_str())?),
        Value::Items(items) => Ok(Json::Array(items_json(alloc, items.as_slice())?)),
        Value::Fields(fields) => Ok(Json::Object(fields_json(alloc, fields.as_slice())?)),
    }
}

#[cycle(write)]
fn items_json(alloc: Global, values: &[Value]) -> Result<Vec<Json>, AllocError>
    ensures written { IfOk result (λ v. items_view v.items ≡ items_written (plains_of (plains values.now))) }
    ensures kept { IfOk result (λ _. AreKept (plains_of (plains values.now))) }
{
    let mut items = Vec::new(alloc);
    for value in values {
        items.push(json_of(alloc, value)?)?;
    }
    Ok(items)
}

/// The members, put in from the last field to the first.
#[cycle(write)]
fn fields_json(alloc: Global, fields: &[Field]) -> Result<Map<String, Json>, AllocError>
    ensures written { IfOk result (λ m. members_view m.entries ≡ pairs_written (field_pairs fields.now)) }
    ensures kept { IfOk result (λ _. AreKept (plains_of (map (λ f. f.1) (field_pairs fields.now)))) }
{
    let mut map = Map::new(alloc);
    let mut i = fields.len();
    while i > 0 {
        i -= 1;
        let field = &fields[i];
        let json = json_of(alloc, &field.value)?;
        put(&mut map, alloc, field.name.as_str(), json)?;
    }
    Ok(map)
}
