//! Line 1 of a file of many rooms: their names.
ghost use Rattle.std.specs.Prelude.{◌≡◌, ◌≤◌, [], length, nat_eq, IfOk};
ghost use Rattle.std.specs.List.{list_any};
ghost use Rattle.std.specs.Cmp.Lexicographic.{pointwise};
ghost use Rattle.serde_json.specs.View.{view, items_view};
ghost use Rattle.pm_head.specs.Answers.{Gives};
ghost use Rattle.pm_head.specs.Rooms.{next_room as room_behind, rooms_from, rooms_of as rooms_in, rooms_line as line_of_rooms};

use crate::code::Code;
use crate::fault::LineError;
use crate::lines::json_line;
use crate::names::is_name;
use pm_list::Listed;
use pm_value::Text;
use serde_json::Value;
use std::alloc::Global;

/// The greatest number of rooms.
const MAX_ROOMS: usize = 16;

/// The names of the rooms that line 1 of a file of many rooms lists, from 1 to 16. A name is formed as a client's, and no two are
/// equal. `WrongShape` comes where the line is no list, or an entry no text; `BadRooms` where the list has no entry or more than
/// 16, or a name is ill-formed or repeated; and what `json_line` says.
#[tactic(auto, unfolding(crate::specs::Rooms::rooms_line))]
pub fn rooms_line(alloc: Global, line: &[u8]) -> Result<Listed<Text>, LineError>
    ensures read { Gives (λ l. l) result (line_of_rooms line.now) }
    ensures few { IfOk result (λ l. length l ≤ 16) }
{
    let json = json_line(alloc, line)?;
    rooms_of(alloc, &json)
}

#[tactic(auto, using(crate::proofs::Counts::counts), unfolding(crate::specs::Rooms::rooms_of))]
fn rooms_of(alloc: Global, json: &Value) -> Result<Listed<Text>, LineError>
    ensures read { Gives (λ l. l) result (rooms_in (view json.now)) }
    ensures few { IfOk result (λ l. length l ≤ 16) }
{
    let Some(items) = json.as_array() else {
        return Err(LineError::Code(Code::WrongShape));
    };
    if items.is_empty() || items.len() > MAX_ROOMS {
        return Err(LineError::Code(Code::BadRooms));
    }
    names_of(alloc, items)
}

/// The entries, each of which is a well-formed name that no earlier one is.
#[tactic(auto, using(pm_list::specs::Readings::fronts), unfolding(crate::specs::Rooms::rooms_from))]
fn names_of(alloc: Global, items: &[Value]) -> Result<Listed<Text>, LineError>
    ensures read { Gives (λ l. l) result (rooms_from [] (items_view items.now)) }
    ensures few { IfOk result (λ l. length l ≤ length items.now) }
{
    let mut names = Listed::new(alloc);
    for item in items {
        let name = next_room(alloc, names.as_slice(), item)?;
        names.push(name)?;
    }
    Ok(names)
}

/// The entry, after these names.
fn next_room(alloc: Global, earlier: &[Text], json: &Value) -> Result<Text, LineError>
    ensures { Gives (λ t. t) result (room_behind earlier.now (view json.now)) }
{
    let Some(name) = json.as_str() else {
        return Err(LineError::Code(Code::WrongShape));
    };
    if !is_name(name) || is_taken(name, earlier) {
        return Err(LineError::Code(Code::BadRooms));
    }
    Ok(Text::from_str(alloc, name)?)
}

fn is_taken(name: &str, earlier: &[Text]) -> bool
    ensures { result ≡ list_any (λ other. pointwise nat_eq name.now other) earlier.now }
{
    earlier.iter().any(|other| name == other.as_str())
}
