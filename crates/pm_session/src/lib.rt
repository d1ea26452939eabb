//! A session: an authority, the members at it (editors and raw clients), and the lines that they play there.
//!
//! The main calls are `Room::play_all` and `Room::settle`; `act` is one line of a member at any host.
//!
//! Proved: outcomes and room are the events of specs/Events and specs/Sessions. A room stays sound whatever raw clients
//! forge. No two entries of the log have one name, and no message of an editor is refused for a step. Of each line the
//! outcome tells what became of its member (`told` of `LineHolds`). The steps that an undo or a redo made are the last ones
//! of each timeline of the editor, and each was made to undo a step of the event (`tied`). A settled room
//! has every editor at the authority's document. An undo with nothing changed since gives the document before the
//! event. Out of memory leaves whole lines done, and of the next its first parts.
#![tactic(auto)]

mod acting;
mod exchange;
mod forge;
mod host;
mod line;
mod local;
mod maker;
mod member;
mod outcome;
mod room;

pub use acting::act;
pub use host::Host;
pub use line::{Act, Line};
pub use maker::{Made, Maker};
pub use member::Member;
pub use outcome::{AnswerSummary, Outcome};
pub use room::Room;
