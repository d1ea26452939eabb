//! Many rooms in one hall. Each line is played in its own room, and what becomes of a room is what its own lines make
//! of it.
//!
//! `Hall` plays the lines on one thread. `run_hall` gives each person a thread of its own, and each room a desk.
//! `play_rooms_on_threads` plays a whole session so, from its opening on.
//!
//! Proved: each room is the session of its own lines alone, in their order, whatever the other rooms' lines are, and
//! every other room is as before. On threads the same holds of each room as pm_workers says it of one.
//!
//! Not proved: anything of the gate but that a host counts the calls that were answered, and that a person plays its
//! lines in the order of their numbers.
#![tactic(auto)]

mod ending;
mod hall;
mod line;
mod merging;
mod new_room;
mod opening;
mod parting;
mod person;
mod running;
mod sharing;
mod stand;
mod threaded;

pub use hall::Hall;
pub use line::RoomLine;
pub use new_room::NewRoom;
pub use person::Person;
pub use running::run_hall;
pub use stand::Stand;
pub use threaded::play_rooms_on_threads;
