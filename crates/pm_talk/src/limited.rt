//! A talk whose submissions have a limit of work, so that no line holds everybody for long.
ghost use Rattle.std.specs.Prelude.{◌≡◌, Ok, IfOk, OnErr, string_bytes};
ghost use Rattle.pm_talk.specs.Limited.{is_over, limit_text, RepliesWithin, IsGoodWithin};

use crate::asked::Asked;
use crate::talk::Talk;
use crate::texts::no_memory;
use crate::work::works;
use pm_serve::{Reply, Service};
use std::alloc::{AllocError, Global};

/// A talk, and how many tokens the steps of one submission may go over, if there is a limit. A submission that goes over more is
/// answered `{"limit":N}` with the limit, and changes nothing; any other line is answered as without a limit.
#[derive(Drop)]
pub struct Limited {
    pub talk: Talk,
    pub limit: Option<u64>,
}

impl Limited {
    /// A talk from line 1 on, with this limit. It takes no memory.
    pub fn new(limit: Option<u64>) -> Limited
        ensures { result ≡ record { talk = Talk.AwaitsSchema; limit = limit } }
    {
        Limited {
            talk: Talk::AwaitsSchema,
            limit,
        }
    }

    /// The answer to a line, and whether further lines are answered, as of `Talk::tell` but for the limit. Out of memory changes
    /// nothing.
    pub fn tell(&mut self, alloc: Global, line: &[u8]) -> Result<Reply, AllocError>
        requires { IsGoodWithin self.old }
        ensures told { IfOk result (λ r. RepliesWithin self.old line.now (string_bytes r.text) r.more self.new) }
        ensures err { OnErr result (self.new ≡ self.old) }
        ensures good { IsGoodWithin self.new }
    {
        self.talk.tell_within(alloc, self.limit, line)
    }
}

/// Whether what is asked is a submission of more work than the limit.
pub(crate) fn is_over(limit: u64, asked: &Asked) -> bool
    ensures { result ≡ is_over limit (Ok asked.now) }
{
    match asked {
        Asked::Submit { steps, .. } => limit < works(steps.as_slice()),
        Asked::Since { .. } | Asked::Doc => false,
    }
}

/// The answer to steps that are more work than the limit, which it tells.
pub fn limit_text(alloc: Global, limit: u64) -> Result<String, AllocError>
    ensures { IfOk result (λ s. string_bytes s ≡ limit_text limit) }
{
    format!(in alloc; "{{\"limit\":{limit}}}\n")
}

impl Service for Limited {
    ghost use Rattle.pm_talk.specs.Texts.{no_memory};
    ghost use Rattle.pm_talk.specs.Limited.{RepliesWithin, IsGoodWithin, last_within};

    ghost good = { IsGoodWithin };

    ghost replies = { RepliesWithin };

    ghost last = { last_within };

    ghost no_memory = { no_memory };

    fn reply(&mut self, alloc: Global, line: &[u8]) -> Result<Reply, AllocError> {
        self.tell(alloc, line)
    }

    fn last(&self) -> &[u8] {
        self.talk.last_text()
    }

    fn no_memory(&self) -> &[u8] {
        no_memory()
    }
}
