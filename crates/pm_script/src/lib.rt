//! Session files: a schema, a first document, clients, and what the clients do, line by line.
//!
//! The main calls are `read_session`, `read_late` and `read_rooms`.
//!
//! Proved: what is answered is the session that the input is, or its least faulty line with its code (`SessionIs`). A
//! session and a refusal exclude each other, the refusal is one, and two sessions of one input have equal types,
//! documents, clients and op lines (`input_means_one`). Of a file of many rooms each room is the session of its own
//! lines.
//!
//! That every input is a session or a refusal is `input_means_something` of pm_laws. Not proved: that there is memory to tell which.
#![tactic(auto)]

mod acts;
mod earlier;
mod entrants;
mod laws;
mod lines;
mod open_room;
mod room_lines;
mod rooms;
mod session;
mod word;

pub use laws::{input_means_one, rooms_mean_one};
pub use pm_head::{Code, Form, Refusal, SessionError};
pub use rooms::{RoomSession, read_rooms};
pub use session::{MAX_INPUT, Session, read_late, read_session};
