//! One line of a session in many rooms.
use pm_session::Line;

/// A line, and the number of the room in which it is played, from 0.
#[derive(Debug, Drop)]
pub struct RoomLine<O, C> {
    pub room: u32,
    pub line: Line<O, C>,
}
