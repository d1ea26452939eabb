//! What has to be known of a session's lines once they are handed out.
ghost use Rattle.std.specs.Prelude.{◌<◌, All, IfOk};
ghost use Rattle.pm_workers.specs.Filed.{IsFileOf};

use crate::hands::{clients_of, file_lines};
use pm_session::Line;
use std::alloc::{AllocError, Global};

/// A session's lines without what they say.
#[derive(Drop)]
pub struct File {
    /// The client of each line.
    pub clients: Vec<u32>,
    /// Each client's lines in order: the place of each, from 0, and whether it presents a message.
    pub places: Vec<Vec<(u32, bool)>>,
}

/// The file of these lines of so many clients. `AllocError` comes from running out of memory, and where the places of the
/// lines are no numbers of 32 bits.
pub fn file_of<O, C>(alloc: Global, count: usize, lines: &[Line<O, C>]) -> Result<File, AllocError>
    requires { All (λ line. line.client < count) lines.now }
    ensures { IfOk result (λ file. IsFileOf count lines.now file) }
{
    if lines.len() > u32::MAX as usize {
        return Err(AllocError);
    }
    Ok(File {
        clients: clients_of(alloc, lines)?,
        places: file_lines(alloc, count, lines)?,
    })
}
