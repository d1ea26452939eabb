//! What clients send to the authority, and what it answers.
ghost use Rattle.std.specs.Prelude.{◌≡◌, IfOk};

use crate::named::{Named, copy_steps};
use pm_change::Change;
use pm_list::Listed;
use std::alloc::{AllocError, Global};

/// What a client sends.
#[derive(Drop)]
pub enum Message<C> {
    /// Steps for the log, made on the document that its first `version` steps give.
    Submit {
        version: u64,
        steps: Listed<Named<C>>,
    },
    /// A request for the log from place `version` on.
    Ask {
        version: u64,
    },
}

/// What the authority answers. Versions, places and counts are numbers of steps.
#[derive(Drop)]
pub enum Answer<C: Change> {
    /// The steps are in the log: `count` of them, from place `from` on.
    Accepted {
        from: u64,
        count: u64,
    },
    /// The version is not the log's length, which is `length`.
    WrongVersion {
        length: u64,
    },
    /// Step `index` of the submission, counted from 0, is the first that does not apply, for this reason.
    StepRefused {
        index: u64,
        reason: C::Reason,
    },
    /// The steps of the log from place `since` on, the oldest first. There are none past the log's end.
    Entries {
        since: u64,
        entries: Listed<Named<C>>,
    },
}

impl<C: Change> Message<C> {
    /// A message equal to this one.
    pub fn copy(&self, alloc: Global) -> Result<Message<C>, AllocError>
        ensures { IfOk result (λ m. m ≡ self.now) }
    {
        match self {
            Message::Submit { version, steps } => Ok(Message::Submit {
                version: *version,
                steps: copy_steps(alloc, steps.as_slice())?,
            }),
            Message::Ask { version } => Ok(Message::Ask { version: *version }),
        }
    }
}
