//! JSON values as values.
ghost use Rattle.std.specs.Prelude.{◌≡◌, ◌≤◌, OnOk, IfOk, map, ◌++◌, ◌∷◌, []};
ghost use Rattle.serde_json.specs.View.{view, items_view, members_view, number_view};
ghost use Rattle.serde_json.specs.Data.{number as json_number};
ghost use Rattle.serde_json.specs.Find.{as_integer};
ghost use Rattle.pm_value.specs.Plain.{plains_of, depth};
ghost use Rattle.pm_value.specs.Views.{plain, plains, field_pairs};
ghost use Rattle.pm_value.specs.Answers.{Gives};
ghost use Rattle.pm_value.specs.Reading.{int_of, value_at, list_at, pairs_at, value_of};
ghost use Rattle.pm_value.specs.Kept.{AreSorted, IsKept, AreKept};
ghost use Rattle.pm_value.specs.Writing.{written, items_written, pairs_written};

use crate::fault::ValueError;
use crate::text::Text;
use crate::value::{Field, Fields, Items, Value};
use serde_json::{Map, Number, Value as Json};
use std::alloc::{AllocError, Global};

/// How many levels of lists and objects a value may have.
pub const MAX_DEPTH: usize = 4;

impl Value {
    /// The value of a JSON value, or its first fault, depth first, the fields of an object in byte order of their names:
    /// `Float` at a number that is not whole or beyond 64 bits, `Wide` at one above 2^63 - 1, `Deep` where a fifth level
    /// of lists and objects is entered. `NoMemory` may come at any point.
    ///
    /// `kept` says that in each object of the value the names stand in strict byte order, and that no whole number is
    /// above 2^63 - 1. Of a key that a JSON text repeats, `serde_json` keeps the last value. The value nests at most four
    /// levels deep (`shallow`), and `to_json` writes it as the same JSON value (`same`).
    pub fn from_json(alloc: Global, json: &Json) -> Result<Value, ValueError>
        ensures read { Gives plain result (value_of (view json.now)) }
        ensures kept { IfOk result (λ v. IsKept (plain v)) }
        ensures shallow { IfOk result (λ v. depth (plain v) ≤ 4) }
        ensures same { IfOk result (λ v. written (plain v) ≡ view json.now) }
    {
        value_at(alloc, json, MAX_DEPTH)
    }
}

#[cycle(read)]
#[tactic(auto, using(crate::proofs::Seen::seen, crate::proofs::Keeping::kept), unfolding(crate::specs::Reading::value_at, crate::specs::Writing::written))]
fn value_at(alloc: Global, json: &Json, levels: usize) -> Result<Value, ValueError>
    ensures read { Gives plain result (value_at (view json.now) levels) }
    ensures kept { IfOk result (λ v. IsKept (plain v)) }
    ensures same { IfOk result (λ v. written (plain v) ≡ view json.now) }
{
    match json {
        Json::Null => Ok(Value::Null),
        Json::Bool(truth) => Ok(Value::Bool(*truth)),
        Json::Number(number) => int_of(number),
        Json::String(text) => Ok(Value::Text(Text::from_str(alloc, text.as_str())?)),
        Json::Array(items) => {
            if levels == 0 {
                return Err(ValueError::Deep);
            }
            let values = list_at(alloc, items, levels - 1)?;
            Ok(Value::Items(Items::new(values)))
        }
        Json::Object(members) => {
            if levels == 0 {
                return Err(ValueError::Deep);
            }
            let fields = pairs_at(alloc, members, levels - 1)?;
            Ok(Value::Fields(Fields::new(fields)))
        }
    }
}

#[tactic(auto, using(crate::proofs::SameJson::same), unfolding(crate::specs::Writing::written))]
fn int_of(number: &Number) -> Result<Value, ValueError>
    ensures read { Gives plain result (int_of (as_integer (number_view number.now))) }
    ensures kept { IfOk result (λ v. IsKept (plain v)) }
    ensures same { IfOk result (λ v. written (plain v) ≡ json_number (number_view number.now)) }
{
    match number.as_i64() {
        Some(n) => Ok(Value::Int(n)),
        None => if number.is_u64() {
            Err(ValueError::Wide)
        } else {
            Err(ValueError::Float)
        },
    }
}

#[cycle(read)]
#[tactic(auto, using(crate::proofs::Keeping::kept), unfolding(crate::specs::Reading::list_at))]
fn list_at(alloc: Global, items: &[Json], levels: usize) -> Result<Vec<Value>, ValueError>
    ensures read { Gives (λ v. plains v.items) result (list_at (items_view items.now) levels) }
    ensures kept { IfOk result (λ v. AreKept (plains_of (plains v.items))) }
    ensures same { IfOk result (λ v. items_written (plains_of (plains v.items)) ≡ items_view items.now) }
{
    let mut values = Vec::new(alloc);
    for item in items {
        values.push(value_at(alloc, item, levels)?)?;
    }
    Ok(values)
}

#[cycle(read)]
#[tactic(auto, using(crate::proofs::Fronts::pairs, crate::proofs::Keeping::kept), unfolding(crate::specs::Reading::pairs_at))]
fn pairs_at(
    alloc: Global,
    members: &Map<String, Json>,
    levels: usize,
) -> Result<Vec<Field>, ValueError>
    ensures read { Gives (λ v. field_pairs v.items) result (pairs_at (members_view members.now.entries) levels) }
    ensures sorted { IfOk result (λ v. AreSorted (field_pairs v.items)) }
    ensures kept { IfOk result (λ v. AreKept (plains_of (map (λ f. f.1) (field_pairs v.items)))) }
    ensures same { IfOk result (λ v. pairs_written (field_pairs v.items) ≡ members_view members.now.entries) }
{
    let mut fields = Vec::new(alloc);
    for (name, json) in members.iter() {
        let value = value_at(alloc, json, levels)?;
        push_field(alloc, &mut fields, name.as_str(), value)?;
    }
    Ok(fields)
}

fn push_field(
    alloc: Global,
    fields: &mut Vec<Field>,
    name: &str,
    value: Value,
) -> Result<(), AllocError>
    ensures { OnOk result (field_pairs fields.new.items ≡ field_pairs fields.old.items ++ (name.now, plain value) ∷ []) }
{
    let name = Text::from_str(alloc, name)?;
    fields.push(Field { name, value })?;
    Ok(())
}
