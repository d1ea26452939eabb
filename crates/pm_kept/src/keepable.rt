//! What may be kept.
use pm_serve::Reply;
use std::alloc::{AllocError, Global};

/// What a line is answered, and whether it changed anything.
#[derive(Drop)]
pub struct Outcome {
    pub reply: Reply,
    pub changed: bool,
}

/// A service whose lines may be kept in a file: those that change it.
pub trait Keepable: Sized + Drop {
    ghost use Rattle.std.specs.Prelude.{◌≡◌, ◌≢◌, IfOk, OnErr, MatchBool, string_bytes};
    ghost use Rattle.pm_kept.specs.Means.{Meaning, Laws};

    ghost means: { Meaning Self };

    /// What it is before its first line. It takes no memory.
    fn start(alloc: Global) -> Self
        ensures start { result ≡ means.start }
        ensures good { means.good result };

    /// Whether its accepted lines are in the file. Before it has begun they are held.
    fn is_begun(&self) -> bool
        ensures { result ≡ means.is_begun self.now };

    /// The answer to a line, and whether the line changed anything. Out of memory changes nothing.
    fn hear(&mut self, alloc: Global, line: &[u8]) -> Result<Outcome, AllocError>
        requires { means.good self.old }
        ensures told { IfOk result (λ h. means.replies self.old line.now (string_bytes h.reply.text) h.reply.more self.new) }
        ensures changed { IfOk result (λ h. MatchBool h.changed (self.new ≢ self.old) (self.new ≡ self.old)) }
        ensures err { OnErr result (self.new ≡ self.old) }
        ensures good { means.good self.new };

    /// Sets how many tokens the steps of a line may go over from now on, or that there is no limit. It takes no memory.
    fn set_limit(&mut self, limit: Option<u64>)
        requires { means.good self.old }
        ensures limited { self.new ≡ means.limited limit self.old }
        ensures good { means.good self.new };

    /// What is said at the end of input. It takes no memory.
    fn last(&self) -> &[u8]
        ensures { result.now ≡ means.last self.now };

    /// What is said where it stands behind the lines of a file, before a further line is answered.
    fn resumed_text(&self, alloc: Global) -> Result<String, AllocError>
        ensures { IfOk result (λ s. string_bytes s ≡ means.resumed self.now) };

    // Below the last method, so that it is a law, which each implementation has to prove.
    ghost laws: { Laws means };
}
