//! What a client sends, and what becomes of an answer.

/// Which message to compose.
#[derive(Clone, Copy, Debug, PartialEq, Eq)]
pub enum MessageKind {
    /// All pending steps, for the log.
    Submit,
    /// A request for what is in the log past the client's version.
    Ask,
}

/// What taking an answer did. The counts are numbers of steps.
#[derive(Clone, Copy, Debug, PartialEq, Eq)]
pub enum Taken {
    /// The first `own` pending steps are in the log, and nothing else past the version.
    Confirmed {
        own: u64,
    },
    /// The first `own` pending steps are in the log, and `foreign` steps of others after them. The other pending steps were
    /// carried over these, and `dropped` of them were lost.
    Rebased {
        own: u64,
        foreign: u64,
        dropped: u64,
    },
    /// The answer holds nothing past the version.
    Stale,
    /// The answer refuses a submission.
    Refused,
}
