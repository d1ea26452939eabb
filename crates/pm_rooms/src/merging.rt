//! The lines of all rooms in one order.
ghost use Rattle.std.specs.Prelude.{◌≡◌, ◌<◌, ◌↔◌, ◌^◌, ℕ, [], All, Some, Vec, length, vec_len, slice_get, slice_index_or, IfOk, IfSome, IfNone, IsSome};
ghost use Rattle.pm_rooms.specs.Lines.{lines_in};

use crate::line::RoomLine;
use pm_session::Line;
use pm_workers::queues;
use std::alloc::{AllocError, Global};
use std::collections::VecDeque;

/// The lines of all rooms, room r's at place r, in one order by their numbers: the next line is the one with the least number
/// among those that stand first in their rooms. There are less than 2^32 rooms.
pub(crate) fn interleave<O: Drop, C: Drop>(
    alloc: Global,
    rooms: Vec<Vec<Line<O, C>>>,
) -> Result<Vec<RoomLine<O, C>>, AllocError>
    requires { vec_len rooms < 2 ^ 32 }
    ensures rooms { IfOk result (λ v. (r : ℕ) (own : Vec _ _) → slice_get rooms.items r ≡ Some own → lines_in r v.items ≡ own.items) }
    ensures there { IfOk result (λ v. All (λ line. line.room < vec_len rooms) v.items) }
{
    let mut left = queues(alloc, rooms)?;
    let mut lines = Vec::new(alloc);
    while let Some(room) = next_room(left.as_slice()) {
        let line = left[room].pop_front().unwrap();
        lines.push(RoomLine {
            room: room as u32,
            line,
        })?;
    }
    Ok(lines)
}

/// The place of the room whose first line has the least number, where some room has a line.
fn next_room<O, C>(left: &[VecDeque<Line<O, C>>]) -> Option<usize>
    ensures there { IfSome result (λ r. r < length left.now) }
    ensures some { IfSome result (λ r. (d : _) → 0 < length (slice_index_or left.now r d).items) }
    ensures none { IfNone result (All (λ q. length q.items ≡ 0) left.now) }
{
    let mut next = None;
    let mut least = 0;
    for at in 0..left.len() {
        if let Some(number) = first_number(&left[at]) {
            if next.is_none() || number < least {
                next = Some(at);
                least = number;
            }
        }
    }
    next
}

/// The number of the first line, where there is one.
fn first_number<O, C>(lines: &VecDeque<Line<O, C>>) -> Option<u32>
    ensures { IsSome result ↔ (0 < length lines.now.items) }
{
    match lines.front() {
        Some(line) => Some(line.number),
        None => None,
    }
}
