//! Positions with sides, each as a list of just two: `[POSITION,SIDE]`.
ghost use Rattle.std.specs.Prelude.{Some};
ghost use Rattle.serde_json.specs.View.{view, items_view};
ghost use Rattle.pm_head.specs.Answers.{Gives};
ghost use Rattle.pm_opjson.specs.Fields.{side_of};
ghost use Rattle.pm_order.specs.Positions.{position_from, pair_from, position_of, position_list, positions_in};

use pm_client::Cursor;
use pm_head::{Code, LineError};
use pm_list::Listed;
use pm_map::Side;
use pm_slicejson::as_count;
use serde_json::Value;
use std::alloc::Global;

/// The list of positions at `positions`, which may be empty: each a whole number from 0 to 4,294,967,295, and its side, where 1
/// is `After` and -1 is `Before`. `WrongShape` comes where it is anything else.
#[tactic(auto, unfolding(crate::specs::Positions::positions_in))]
pub(crate) fn positions_in(alloc: Global, json: &Value) -> Result<Listed<Cursor>, LineError>
    ensures { Gives (λ l. l) result (positions_in (view json.now)) }
{
    let Some(value) = json.get("positions") else {
        return Err(LineError::Code(Code::WrongShape));
    };
    let Some(items) = value.as_array() else {
        return Err(LineError::Code(Code::WrongShape));
    };
    position_list(alloc, items)
}

/// The values as positions.
#[tactic(auto, using(pm_list::specs::Readings::fronts), unfolding(crate::specs::Positions::position_list))]
fn position_list(alloc: Global, items: &[Value]) -> Result<Listed<Cursor>, LineError>
    ensures { Gives (λ l. l) result (position_list (items_view items.now)) }
{
    let mut positions = Listed::new(alloc);
    for item in items {
        let position = position_of(item)?;
        positions.push(position)?;
    }
    Ok(positions)
}

/// The value as a position with its side.
fn position_of(json: &Value) -> Result<Cursor, LineError>
    ensures { Gives (λ c. c) result (position_of (view json.now)) }
{
    match json.as_array() {
        Some(items) => pair_from(items),
        None => Err(LineError::Code(Code::WrongShape)),
    }
}

/// Just two values, as a position and its side.
fn pair_from(items: &[Value]) -> Result<Cursor, LineError>
    ensures { Gives (λ c. c) result (pair_from (items_view items.now)) }
{
    match items {
        [pos, side] => position_from(pos, side),
        _ => Err(LineError::Code(Code::WrongShape)),
    }
}

#[tactic(auto, unfolding(crate::specs::Positions::position_from))]
fn position_from(pos: &Value, side: &Value) -> Result<Cursor, LineError>
    ensures { Gives (λ c. c) result (position_from (view pos.now) (view side.now)) }
{
    let Some(pos) = as_count(pos) else {
        return Err(LineError::Code(Code::WrongShape));
    };
    let side = side_of(side)?;
    Ok(Cursor {
        pos: pos as u64,
        side,
    })
}

/// The value as a side.
#[tactic(auto, using(pm_opjson::proofs::Sides::sides))]
fn side_of(json: &Value) -> Result<Side, LineError>
    ensures { Gives (λ s. s) result (side_of (Some (view json.now))) }
{
    match json.as_i64() {
        Some(1) => Ok(Side::After),
        Some(-1) => Ok(Side::Before),
        _ => Err(LineError::Code(Code::WrongShape)),
    }
}
