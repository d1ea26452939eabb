//! What answers lines.
use std::alloc::{AllocError, Global};

/// The answer to a line.
#[derive(Drop)]
pub struct Reply {
    /// What is written, which may be nothing. It ends with LF where it is a line.
    pub text: String,
    /// Whether further lines are answered.
    pub more: bool,
}

/// What answers lines, one after another.
pub trait Service {
    ghost use Rattle.std.specs.Prelude.{◌≡◌, ℕ, List, Bool, IfOk, OnErr, string_bytes};

    // What holds of it before and after each line.
    ghost good: { Self → Type 0 };

    // What it may answer to a line, whether further lines are answered, and what it is then.
    ghost replies: { Self → List ℕ → List ℕ → Bool → Self → Type 0 };

    // What it says at the end of input.
    ghost last: { Self → List ℕ };

    // What a line is answered for which there is no memory.
    ghost no_memory: { List ℕ };

    /// The answer to a line, which has at most the first `KEPT` bytes of what came. Out of memory changes nothing.
    fn reply(&mut self, alloc: Global, line: &[u8]) -> Result<Reply, AllocError>
        requires { good self.old }
        ensures told { IfOk result (λ r. replies self.old line.now (string_bytes r.text) r.more self.new) }
        ensures err { OnErr result (self.new ≡ self.old) }
        ensures good { good self.new };

    /// What it says at the end of input. It takes no memory.
    fn last(&self) -> &[u8]
        ensures { result.now ≡ last self.now };

    /// What a line is answered for which there is no memory. It takes none.
    fn no_memory(&self) -> &[u8]
        ensures { result.now ≡ no_memory };
}
