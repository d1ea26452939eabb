//! Forms of the files that commands play.
use pm_head::Form;

/// Which files a command plays.
#[derive(Clone, Copy, Debug, PartialEq, Eq)]
pub enum FileForm {
    /// One session, in this form.
    OneRoom(Form),
    /// Many rooms, each with a session of its own.
    ManyRooms,
}
